//! Plans of small trees, worked out by hand.
#![tactic(auto)]

#[cfg(test)]
mod tests {
    use interference::graph::{Edge, GraphModel};
    use interference::transmission::Transmission;
    use planner::planner::plan;
    use routing::link::TreeLink;
    use std::test::Fail;

    fn link(child: u8, parent: u8, slots: u8) -> TreeLink {
        TreeLink {
            child,
            parent,
            slots,
        }
    }

    fn hop(from: u8, to: u8) -> Transmission {
        Transmission { from, to }
    }

    // A node waits for its child.
    #[test]
    fn chain(rt: HostRuntime) -> Result<(), Fail> {
        let model = GraphModel::from_edges(3, &[])?;
        let mut transmissions = [hop(9, 9); 256];
        let mut counts = [9u16; 256];
        let size = plan(
            &model,
            &[link(1, 0, 1), link(2, 1, 1)],
            &mut transmissions,
            &mut counts,
        )?;
        assert_eq!(rt; size.transmissions, 2);
        assert_eq!(rt; size.steps, 2);
        assert_eq!(rt; transmissions[0], hop(2, 1));
        assert_eq!(rt; transmissions[1], hop(1, 0));
        assert_eq!(rt; transmissions[2], hop(9, 9));
        assert_eq!(rt; counts[0], 1);
        assert_eq!(rt; counts[1], 1);
        assert_eq!(rt; counts[2], 9);
        Ok(())
    }

    // A base station alone has one empty step.
    #[test]
    fn alone(rt: HostRuntime) -> Result<(), Fail> {
        let model = GraphModel::from_edges(1, &[])?;
        let mut transmissions = [hop(9, 9); 256];
        let mut counts = [9u16; 256];
        let size = plan(&model, &[], &mut transmissions, &mut counts)?;
        assert_eq!(rt; size.transmissions, 0);
        assert_eq!(rt; size.steps, 1);
        assert_eq!(rt; transmissions[0], hop(9, 9));
        assert_eq!(rt; counts[0], 0);
        assert_eq!(rt; counts[1], 9);
        Ok(())
    }

    // Two leaves of one parent go one after the other, the smaller number first.
    #[test]
    fn leaves(rt: HostRuntime) -> Result<(), Fail> {
        let model = GraphModel::from_edges(3, &[])?;
        let mut transmissions = [hop(9, 9); 256];
        let mut counts = [9u16; 256];
        let size = plan(
            &model,
            &[link(2, 0, 1), link(1, 0, 1)],
            &mut transmissions,
            &mut counts,
        )?;
        assert_eq!(rt; size.transmissions, 2);
        assert_eq!(rt; size.steps, 2);
        assert_eq!(rt; transmissions[0], hop(1, 0));
        assert_eq!(rt; transmissions[1], hop(2, 0));
        assert_eq!(rt; counts[0], 1);
        assert_eq!(rt; counts[1], 1);
        Ok(())
    }

    // Node 2 hears node 3, so 4 waits for 3 to finish; then 4 and 1 share a step, and 2 waits for both slots of 4.
    #[test]
    fn reuse(rt: HostRuntime) -> Result<(), Fail> {
        let model = GraphModel::from_edges(5, &[Edge { from: 3, to: 2 }])?;
        let tree = [link(1, 0, 1), link(2, 0, 1), link(3, 1, 1), link(4, 2, 2)];
        let mut transmissions = [hop(9, 9); 256];
        let mut counts = [9u16; 256];
        let size = plan(&model, &tree, &mut transmissions, &mut counts)?;
        assert_eq!(rt; size.transmissions, 5);
        assert_eq!(rt; size.steps, 4);
        assert_eq!(rt; transmissions[0], hop(3, 1));
        assert_eq!(rt; transmissions[1], hop(4, 2));
        assert_eq!(rt; transmissions[2], hop(1, 0));
        assert_eq!(rt; transmissions[3], hop(4, 2));
        assert_eq!(rt; transmissions[4], hop(2, 0));
        assert_eq!(rt; counts[0], 1);
        assert_eq!(rt; counts[1], 2);
        assert_eq!(rt; counts[2], 1);
        assert_eq!(rt; counts[3], 1);
        assert_eq!(rt; counts[4], 9);
        Ok(())
    }
}
