//! Worked examples of approval, each refusal among them.
#![tactic(auto)]

#[cfg(test)]
mod tests {
    use interference::graph::{Edge, GraphModel};
    use interference::transmission::Transmission;
    use plan::approval::NoSuchStep;
    use plan::approved::ApprovedPlan;
    use plan::draft::Draft;
    use plan::fault::ApprovalFault;
    use routing::fault::TreeFault;
    use routing::link::TreeLink;
    use std::test::Fail;

    fn link(child: u8, parent: u8, slots: u8) -> TreeLink {
        TreeLink {
            child,
            parent,
            slots,
        }
    }

    fn send(from: u8, to: u8) -> Transmission {
        Transmission { from, to }
    }

    // What approval says of a draft at a site of so many nodes where 3 hears 1.
    fn verdict<'a>(
        nodes: u8,
        tree: &[TreeLink],
        transmissions: &'a [Transmission],
        counts: &'a [u16],
    ) -> Result<Option<ApprovalFault>, Fail> {
        let model = GraphModel::from_edges(nodes, &[Edge { from: 1, to: 3 }])?;
        let mut plan = ApprovedPlan::new();
        let draft = Draft {
            transmissions,
            counts,
        };
        Ok(plan.approve(tree, draft, &model).err())
    }

    #[test]
    fn two_hops_are_two_steps_apart(rt: HostRuntime) -> Result<(), Fail> {
        let model = GraphModel::from_edges(3, &[])?;
        let tree = [link(2, 1, 1), link(1, 0, 1)];
        let mut plan = ApprovedPlan::new();
        let draft = Draft {
            transmissions: &[send(2, 1), send(1, 0)],
            counts: &[1, 1],
        };
        plan.approve(&tree, draft, &model)?;
        assert_eq!(rt; plan.length(), 2);
        assert_eq!(rt; plan.distance(), 2);
        let part = plan.step(1)?;
        assert!(rt; part.len() == 1);
        assert_eq!(rt; part[0], send(1, 0));
        assert!(rt; plan.step(2).is_err());
        Ok(())
    }

    #[test]
    fn a_new_place_has_one_empty_step(rt: HostRuntime) -> Result<(), Fail> {
        let plan = ApprovedPlan::new();
        assert_eq!(rt; plan.length(), 1);
        assert_eq!(rt; plan.distance(), 1);
        assert_eq!(rt; plan.step(0)?.len(), 0);
        assert!(rt; plan.step(1).is_err());
        Ok(())
    }

    #[test]
    fn distant_hops_share_a_step(rt: HostRuntime) -> Result<(), Fail> {
        // 2 -> 1 and 4 -> 3 share step 0. 4 -> 3 and 3 -> 0 share node 3, two steps apart, so the distance is 3.
        let tree = [link(1, 0, 1), link(2, 1, 1), link(3, 0, 1), link(4, 3, 1)];
        let model = GraphModel::from_edges(5, &[])?;
        let mut plan = ApprovedPlan::new();
        let draft = Draft {
            transmissions: &[send(2, 1), send(4, 3), send(1, 0), send(3, 0)],
            counts: &[2, 1, 1],
        };
        plan.approve(&tree, draft, &model)?;
        assert_eq!(rt; plan.length(), 3);
        assert_eq!(rt; plan.distance(), 3);
        assert_eq!(rt; plan.step(0)?.len(), 2);
        Ok(())
    }

    #[test]
    fn trees_are_refused_first(rt: HostRuntime) -> Result<(), Fail> {
        let short = [link(1, 0, 1)];
        assert_eq!(rt;
            verdict(4, &short, &[], &[])?,
            Some(ApprovalFault::Tree(TreeFault::Count))
        );
        let wide = [link(1, 0, 1), link(2, 1, 5), link(3, 0, 1)];
        assert_eq!(rt;
            verdict(4, &wide, &[], &[])?,
            Some(ApprovalFault::Tree(TreeFault::OutOfRange(1)))
        );
        let twice = [link(1, 0, 1), link(2, 1, 1), link(1, 2, 1)];
        assert_eq!(rt;
            verdict(4, &twice, &[], &[])?,
            Some(ApprovalFault::Tree(TreeFault::Repeated(2)))
        );
        let ring = [link(1, 0, 1), link(2, 3, 1), link(3, 2, 1)];
        assert_eq!(rt;
            verdict(4, &ring, &[], &[])?,
            Some(ApprovalFault::Tree(TreeFault::Unrooted(1)))
        );
        Ok(())
    }

    #[test]
    fn each_fault_of_a_draft_is_named(rt: HostRuntime) -> Result<(), Fail> {
        // 1 and 2 send to the base station, 3 to 2; 3 hears 1.
        let tree = [link(1, 0, 1), link(2, 0, 1), link(3, 2, 1)];
        let good = [send(3, 2), send(1, 0), send(2, 0)];
        assert_eq!(rt; verdict(4, &tree, &good, &[1, 1, 1])?, None);
        assert_eq!(rt; verdict(4, &tree, &good, &[1, 0, 1, 1])?, None);
        assert_eq!(rt; verdict(4, &tree, &good, &[])?, Some(ApprovalFault::Shape));
        assert_eq!(rt;
            verdict(4, &tree, &good, &[1, 1])?,
            Some(ApprovalFault::Shape)
        );
        let stray = [send(3, 2), send(1, 2), send(2, 0)];
        assert_eq!(rt;
            verdict(4, &tree, &stray, &[1, 1, 1])?,
            Some(ApprovalFault::NotToParent(1))
        );
        let close = [send(3, 2), send(1, 0), send(2, 0)];
        assert_eq!(rt;
            verdict(4, &tree, &close, &[1, 2])?,
            Some(ApprovalFault::Conflicting(2))
        );
        let again = [send(3, 2), send(1, 0), send(2, 0), send(2, 0)];
        assert_eq!(rt;
            verdict(4, &tree, &again, &[1, 1, 1, 1])?,
            Some(ApprovalFault::SlotCount(2))
        );
        let early = [send(2, 0), send(1, 0), send(3, 2)];
        assert_eq!(rt;
            verdict(4, &tree, &early, &[1, 1, 1])?,
            Some(ApprovalFault::OutOfOrder(0))
        );
        Ok(())
    }
}
