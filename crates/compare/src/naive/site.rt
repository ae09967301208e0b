use crate::naive::fault::SiteFault;
use crate::survey::{Edge, Link};
use std::alloc::Global;
use std::iter::successors;

/// A site as its file tells it, sound or not.
#[derive(Drop)]
pub struct Site {
    pub nodes: u8,
    pub edges: Vec<Edge>,
    pub tree: Vec<Link>,
}

impl Site {
    pub fn new(heap: Global, nodes: u8) -> Site {
        Site {
            nodes,
            edges: Vec::new(heap),
            tree: Vec::new(heap),
        }
    }

    /// Refuses the first fault of the graph or the tree.
    pub fn check(&self) -> Result<(), SiteFault> {
        if self.nodes < 1 || self.nodes > 64 {
            return Err(SiteFault::NodeCount);
        }
        if self.has_outer_edge() {
            return Err(SiteFault::OuterEdge);
        }
        if self.tree.len().saturating_add(1) != usize::from(self.nodes) {
            return Err(SiteFault::LinkCount);
        }
        if self.tree.iter().any(|link| self.is_bad(*link)) {
            return Err(SiteFault::BadLink);
        }
        if self.tree.iter().any(|link| self.links_of(link.child) > 1) {
            return Err(SiteFault::RepeatedChild);
        }
        if self
            .tree
            .iter()
            .any(|link| self.depth(link.child).is_none())
        {
            return Err(SiteFault::LostChild);
        }
        Ok(())
    }

    fn has_outer_edge(&self) -> bool {
        self.edges
            .iter()
            .any(|edge| edge.from >= self.nodes || edge.to >= self.nodes)
    }

    fn is_bad(&self, link: Link) -> bool {
        let outside = link.child >= self.nodes || link.parent >= self.nodes;
        let slots = link.slots < 1 || link.slots > 4;
        outside || slots || link.child == 0 || link.child == link.parent
    }

    fn links_of(&self, child: u8) -> usize {
        self.tree.iter().filter(|link| link.child == child).count()
    }

    /// The link by which the node transmits.
    pub fn link(&self, node: u8) -> Option<Link> {
        self.tree.iter().find(|link| link.child == node).copied()
    }

    /// The hops to the base station, if following parents comes there; no way has more hops than there are links.
    pub fn depth(&self, node: u8) -> Option<usize> {
        let most = self.tree.len().saturating_add(1);
        successors(Some(node), |at| match at {
            // Nobody looks for what comes after the base station.
            0 => None,
            _ => self.link(*at).map(|link| link.parent),
        })
        .take(most)
        .position(|at| at == 0)
    }

    fn hears(&self, from: u8, to: u8) -> bool {
        self.edges
            .iter()
            .any(|edge| edge.from == from && edge.to == to)
    }

    /// Whether the transmissions of two links conflict.
    pub fn conflict(&self, s: Link, t: Link) -> bool {
        let shared = s.child == t.child
            || s.child == t.parent
            || s.parent == t.child
            || s.parent == t.parent;
        shared || self.hears(s.child, t.parent) || self.hears(t.child, s.parent)
    }
}
