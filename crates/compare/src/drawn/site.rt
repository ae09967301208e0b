use crate::drawn::source::Source;
use crate::survey::{Edge, Link};
use dayfile::record::Record;
use std::alloc::AllocError;

/// How the places of a routing tree hang together, before nodes are dealt to them. Place 0 is the base station.
#[derive(Clone, Copy)]
enum Shape {
    Random,
    Chain,
    Star,
    Binary,
}

impl Shape {
    fn draw(source: &mut Source) -> Shape {
        match source.below(4) {
            0 => Shape::Random,
            1 => Shape::Chain,
            2 => Shape::Star,
            _ => Shape::Binary,
        }
    }

    fn parent(self, source: &mut Source, place: u8) -> u8 {
        match self {
            Shape::Random => source.byte(u32::from(place)),
            Shape::Chain => place.saturating_sub(1),
            Shape::Star => 0,
            Shape::Binary => place / 2,
        }
    }
}

/// A site that is drawn sound, and may be spoilt before its records are written.
#[derive(Drop)]
pub struct DrawnSite {
    nodes: u8,
    tree: Vec<Link>,
    edges: Vec<Edge>,
}

// A source and the number of nodes go through four functions: there is no more to be said of the two together.
/// The nodes but the base station in any order, so that a node's number says nothing of its depth.
fn draw_labels(source: &mut Source, nodes: u8) -> Result<Vec<u8>, AllocError> {
    let mut labels: Vec<u8> = (1..nodes).collect(source.heap)?;
    source.shuffle(&mut labels);
    Ok(labels)
}

fn label(labels: &[u8], place: u8) -> u8 {
    place
        .checked_sub(1)
        .and_then(|i| labels.get(usize::from(i)).copied())
        .unwrap_or(0)
}

fn draw_tree(source: &mut Source, nodes: u8) -> Result<Vec<Link>, AllocError> {
    let labels = draw_labels(source, nodes)?;
    let shape = Shape::draw(source);
    let most = source.below(4).saturating_add(1);
    let mut tree = Vec::new(source.heap);
    for place in 1..nodes {
        let above = shape.parent(source, place);
        let slots = source.byte(most).saturating_add(1);
        tree.push(Link {
            child: label(&labels, place),
            parent: label(&labels, above),
            slots,
        })?;
    }
    Ok(tree)
}

fn draw_edges(source: &mut Source, nodes: u8) -> Result<Vec<Edge>, AllocError> {
    let bound = u32::from(nodes);
    let most = if source.one_in(8) {
        bound.saturating_mul(4)
    } else {
        bound
    };
    let mut edges = Vec::new(source.heap);
    for _ in 0..source.below(most) {
        let from = source.byte(bound);
        let to = source.byte(bound);
        edges.push(Edge { from, to })?;
    }
    Ok(edges)
}

impl DrawnSite {
    pub fn draw(source: &mut Source, nodes: u8) -> Result<DrawnSite, AllocError> {
        let tree = draw_tree(source, nodes)?;
        let edges = draw_edges(source, nodes)?;
        Ok(DrawnSite { nodes, tree, edges })
    }

    /// The slots of all links: no plan of the site is longer.
    pub fn scale(&self) -> u32 {
        self.tree
            .iter()
            .fold(0u32, |sum, link| sum.saturating_add(u32::from(link.slots)))
            .max(1)
    }

    /// The nodes record, then links and edges mixed.
    pub fn records(&self, source: &mut Source) -> Result<Vec<Record>, AllocError> {
        let mut body = self.links(source)?;
        for edge in self.edges.iter() {
            body.push(Record::Edge {
                from: edge.from,
                to: edge.to,
            })?;
        }
        source.shuffle(&mut body);
        let mut records = vec![in source.heap; Record::Nodes { count: self.nodes }]?;
        records.extend_from_slice(body.as_slice())?;
        Ok(records)
    }

    fn links(&self, source: &Source) -> Result<Vec<Record>, AllocError> {
        self.tree
            .iter()
            .map(|link| Record::Tree {
                child: link.child,
                parent: link.parent,
                slots: link.slots,
            })
            .collect(source.heap)
    }

    /// Puts in one fault; which refusal follows is not decided here.
    pub fn spoil(&mut self, source: &mut Source) -> Result<(), AllocError> {
        let links = self.tree.len();
        let what = source.below(6);
        let i = source.place(links);
        let j = source.place(links);
        match what {
            0 => self.spoil_count(source),
            1 => self.spoil_edges(source)?,
            2 => self.spoil_link_count(source)?,
            3 => self.spoil_link(source, i),
            4 => self.repeat_child(i, j),
            _ => self.close_ring(i, j),
        }
        Ok(())
    }

    fn spoil_count(&mut self, source: &mut Source) {
        self.nodes = if source.one_in(2) {
            0
        } else {
            source.byte_from(65)
        };
    }

    fn spoil_edges(&mut self, source: &mut Source) -> Result<(), AllocError> {
        let beyond = source.byte_from(self.nodes);
        let inside = source.byte(u32::from(self.nodes));
        let edge = if source.one_in(2) {
            Edge {
                from: beyond,
                to: inside,
            }
        } else {
            Edge {
                from: inside,
                to: beyond,
            }
        };
        self.edges.push(edge)?;
        Ok(())
    }

    fn spoil_link_count(&mut self, source: &mut Source) -> Result<(), AllocError> {
        if source.one_in(2) {
            let _ = self.tree.pop();
            return Ok(());
        }
        let child = source.byte(u32::from(self.nodes));
        let parent = source.byte(u32::from(self.nodes));
        self.tree.push(Link {
            child,
            parent,
            slots: 1,
        })?;
        Ok(())
    }

    fn spoil_link(&mut self, source: &mut Source, i: usize) {
        let nodes = self.nodes;
        let Some(link) = self.tree.get_mut(i) else {
            return;
        };
        match source.below(6) {
            0 => link.child = source.byte_from(nodes),
            1 => link.parent = source.byte_from(nodes),
            2 => link.slots = 0,
            3 => link.slots = source.byte_from(5),
            4 => link.child = 0,
            _ => link.parent = link.child,
        }
    }

    fn child(&self, i: usize) -> u8 {
        self.tree.get(i).map_or(0, |link| link.child)
    }

    fn repeat_child(&mut self, i: usize, j: usize) {
        let child = self.child(j);
        if let Some(link) = self.tree.get_mut(i) {
            link.child = child;
        }
    }

    fn set_parent(&mut self, i: usize, parent: u8) {
        if let Some(link) = self.tree.get_mut(i) {
            link.parent = parent;
        }
    }

    /// Two nodes that are each other's parent have no way to the base station.
    fn close_ring(&mut self, i: usize, j: usize) {
        let first = self.child(i);
        let second = self.child(j);
        self.set_parent(i, second);
        self.set_parent(j, first);
    }
}
