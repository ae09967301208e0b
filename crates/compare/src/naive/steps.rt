use crate::naive::site::Site;
use crate::survey::Link;
use std::alloc::{AllocError, Global};

/// No tree has more slots, so no plan more steps: 63 links of 4 slots.
const MOST_STEPS: usize = 252;

/// What the engine asks of a plan.
#[derive(Clone, Copy)]
pub struct Plan {
    pub length: u64,
    pub distance: u64,
}

/// A transmission and the step that it is in.
#[derive(Clone, Copy)]
struct Placed {
    step: usize,
    link: Link,
}

/// A plan in the making.
#[derive(Drop)]
struct Draft<'a> {
    heap: Global,
    site: &'a Site,
    /// The links, deepest child first, then smallest child first, each with the slots that it has left.
    left: Vec<Link>,
    placed: Vec<Placed>,
    /// The steps that are filled.
    steps: usize,
}

/// Adds the links whose child has this depth, smallest child first.
fn add_level(site: &Site, depth: usize, order: &mut Vec<Link>) -> Result<(), AllocError> {
    for node in 1..site.nodes {
        if let Some(link) = site.link(node)
            && site.depth(node) == Some(depth)
        {
            order.push(link)?;
        }
    }
    Ok(())
}

fn ordered_links(heap: Global, site: &Site) -> Result<Vec<Link>, AllocError> {
    let mut order = Vec::new(heap);
    for depth in (1..site.nodes as usize).rev() {
        add_level(site, depth, &mut order)?;
    }
    Ok(order)
}

impl Draft<'_> {
    fn has_slots_left(&self) -> bool {
        self.left.iter().any(|link| link.slots > 0)
    }

    fn awaits_child(&self, node: u8) -> bool {
        self.left
            .iter()
            .any(|link| link.parent == node && link.slots > 0)
    }

    /// The links that may transmit in the step that begins now.
    fn candidates(&self) -> Result<Vec<Link>, AllocError> {
        self.left
            .iter()
            .filter(|link| link.slots > 0 && !self.awaits_child(link.child))
            .copied()
            .collect(self.heap)
    }

    /// Whether the link conflicts with none that joined the present step.
    fn fits_step(&self, link: Link) -> bool {
        !self.placed.iter().any(|other| other.step == self.steps
            && self.site.conflict(link, other.link))
    }

    fn join(&mut self, link: Link) -> Result<(), AllocError> {
        self.placed.push(Placed {
            step: self.steps,
            link,
        })?;
        for entry in self.left.iter_mut() {
            if entry.child == link.child {
                entry.slots = entry.slots.saturating_sub(1);
            }
        }
        Ok(())
    }

    fn fill_step(&mut self) -> Result<(), AllocError> {
        let candidates = self.candidates()?;
        for link in candidates.iter() {
            if self.fits_step(*link) {
                self.join(*link)?;
            }
        }
        self.steps = self.steps.saturating_add(1);
        Ok(())
    }

    fn fill(&mut self) -> Result<(), AllocError> {
        for _ in 0..MOST_STEPS {
            if !self.has_slots_left() {
                break;
            }
            self.fill_step()?;
        }
        Ok(())
    }

    /// Whether the transmission conflicts with one so many steps later or more.
    fn meets(&self, early: Placed, distance: usize) -> bool {
        self.placed.iter().any(|late| {
            late.step >= early.step.saturating_add(distance)
                && self.site.conflict(early.link, late.link)
        })
    }

    fn is_distance(&self, distance: usize) -> bool {
        !self.placed.iter().any(|early| self.meets(*early, distance))
    }

    /// The minimum step distance. No two steps are as far apart as the plan is long.
    fn distance(&self) -> usize {
        (1..self.steps)
            .find(|distance| self.is_distance(*distance))
            .unwrap_or(self.steps.max(1))
    }
}

/// The plan of a sound site.
pub fn make_plan(heap: Global, site: &Site) -> Result<Plan, AllocError> {
    let mut draft = Draft {
        heap,
        site,
        left: ordered_links(heap, site)?,
        placed: Vec::new(heap),
        steps: 0,
    };
    draft.fill()?;
    Ok(Plan {
        length: draft.steps.max(1) as u64,
        distance: draft.distance() as u64,
    })
}
