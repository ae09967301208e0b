ghost use Rattle.std.specs.Prelude.{◌≡◌, ℕ, ◌<◌, not, length, is_some, position, slice_index};
ghost use Rattle.routing.specs.Tree.{Indexes, by_node, hops, link_at};
ghost use Rattle.routing.specs.declared.link.TreeLink.{TreeLink as Link};
ghost use Rattle.std.specs.Option.{unwrap_or};

use crate::link::TreeLink;

/// A tree whose records index the tables by node.
#[derive(Clone, Copy)]
pub(crate) struct IndexedTree<'a> {
    pub(crate) links: &'a [TreeLink],
    ghost few: { length links.now < 64 },
    ghost indexed: { (k : ℕ) → Indexes (link_at links.now k) },
}

impl IndexedTree<'_> {
    /// A table by node, with the value of each record at its child.
    pub(crate) fn by_node<F: Fn(TreeLink) -> u8>(self, value: F) -> [u8; 64]
        requires { F.IsAlwaysCallable value }
        ensures { (g : Link → ℕ) → ((l : Link) (x : ℕ) → F.post value l x → x ≡ g l) → result ≡ by_node g self.entry.links.now }
    {
        let mut table = [0; 64];
        for link in self.links {
            table[usize::from(link.child)] = value(*link);
        }
        table
    }

    /// The first record whose child has no way to the base station.
    pub(crate) fn first_unrooted(self, parents: &Parents) -> Option<usize>
        ensures { result ≡ position (λ l. not (is_some (hops parents.now.table (length self.entry.links.now) l.child))) self.entry.links.now }
    {
        let most = self.links.len() as u8;
        self.links
            .iter()
            .position(|link| parents.hops(most, link.child).is_none())
    }

    /// Each node's hops to the base station.
    pub(crate) fn depths(self, parents: &Parents) -> [u8; 64]
        ensures { result ≡ by_node (λ l. unwrap_or (hops parents.now.table (length self.entry.links.now) l.child) 0) self.entry.links.now }
    {
        let most = self.links.len() as u8;
        self.by_node(|link| parents.hops(most, link.child).unwrap_or(0))
    }
}

/// Each node's parent; 0 for the base station and where the tree has no such child.
#[derive(Clone, Copy)]
pub(crate) struct Parents {
    pub(crate) table: [u8; 64],
}

impl Parents {
    /// The node's parent; 0 past the table.
    fn of(&self, node: u8) -> u8
        ensures { result ≡ slice_index self.now.table node }
    {
        self.table.get(usize::from(node)).copied().unwrap_or(0)
    }

    /// The hops from a node to the base station, where at most so many lead there.
    fn hops(&self, most: u8, node: u8) -> Option<u8>
        ensures { result ≡ hops self.now.table most node }
    {
        // A loop: `successors(..).take(..).position(..)` counts in usize, and would be turned back into the u8 that is answered.
        let mut at = node;
        for i in 0..most {
            if at == 0 {
                return Some(i);
            }
            at = self.of(at);
        }
        if at == 0 { Some(most) } else { None }
    }
}
