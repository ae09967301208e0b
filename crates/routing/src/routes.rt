ghost use Rattle.routing.specs.Tree.{TreeRead};

use crate::fault::TreeFault;
use crate::link::TreeLink;
use crate::search::{first_bad, first_repeated};
use crate::tables::{IndexedTree, Parents};
use interference::model::Interference;

/// A routing tree by node: its parent, its slots in a round, and its hops to the base station; 0 where the tree
/// has no such child.
// Three tables and no table of nodes: planner and approval each read one of them alone.
#[derive(Clone, Copy)]
pub struct Routes {
    pub parents: [u8; 64],
    pub slots: [u8; 64],
    pub depths: [u8; 64],
}

/// The routes of a tree at the model's site, or the first reason to refuse the tree.
pub fn read_tree<M: Interference>(model: &M, tree: &[TreeLink]) -> Result<Routes, TreeFault>
    ensures { TreeRead (M.nodes model.now) tree.now result }
{
    let n = model.nodes();
    if tree.len() + 1 != usize::from(n) {
        return Err(TreeFault::Count);
    }
    if let Some(at) = first_bad(n, tree) {
        return Err(TreeFault::OutOfRange(at));
    }
    if let Some(at) = first_repeated(tree) {
        return Err(TreeFault::Repeated(at));
    }
    let tree = IndexedTree { links: tree };
    let parents = Parents {
        table: tree.by_node(|link| link.parent),
    };
    if let Some(at) = tree.first_unrooted(&parents) {
        return Err(TreeFault::Unrooted(at));
    }
    Ok(Routes {
        parents: parents.table,
        slots: tree.by_node(|link| link.slots),
        depths: tree.depths(&parents),
    })
}
