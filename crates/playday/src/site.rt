use interference::graph::{Edge, GraphModel};
use plan::approved::ApprovedPlan;
use planning::make_plan;
use routing::link::TreeLink;

/// Five nodes in a row: each hears its neighbours only.
const EDGES: [Edge; 8] = [
    Edge { from: 0, to: 1 },
    Edge { from: 1, to: 0 },
    Edge { from: 1, to: 2 },
    Edge { from: 2, to: 1 },
    Edge { from: 2, to: 3 },
    Edge { from: 3, to: 2 },
    Edge { from: 3, to: 4 },
    Edge { from: 4, to: 3 },
];

/// Each node sends to the next one on the way to the base station.
const TREE: [TreeLink; 4] = [
    TreeLink {
        child: 1,
        parent: 0,
        slots: 1,
    },
    TreeLink {
        child: 2,
        parent: 1,
        slots: 1,
    },
    TreeLink {
        child: 3,
        parent: 2,
        slots: 1,
    },
    TreeLink {
        child: 4,
        parent: 3,
        slots: 1,
    },
];

/// The plan of the site, if it has one.
pub fn approved_plan() -> Option<ApprovedPlan> {
    let model = GraphModel::from_edges(5, &EDGES).ok()?;
    let mut plan = ApprovedPlan::new();
    make_plan(&mut plan, &TREE, &model).ok()?;
    Some(plan)
}
