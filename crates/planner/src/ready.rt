ghost use Rattle.std.specs.Prelude.{◌≡◌, ℕ, ◌<◌, ◌≤◌, false, slice_index_or};
ghost use Rattle.planner.specs.Planner.{candidates, deeper, is_awaiting};
ghost use Rattle.queue.specs.Ranked.{ranked};

use crate::candidate::Candidate;
use crate::site::Site;
use interference::model::Interference;
use queue::Queue;
use std::cmp::Reverse;

impl<M: Interference> Site<'_, M> {
    /// For each node, whether a child of it has slots left.
    fn awaiting(&self, left: &[u8; 64], n: usize) -> [bool; 64]
        requires { n ≤ 64 }
        ensures { (v : ℕ) → v < 64 → slice_index_or result v false ≡ is_awaiting self.now.routes.now.parents left.now n v }
    {
        // By node over two tables, and below over three: zipped, they would have to be named again in each turn.
        let mut table = [false; 64];
        for i in 0..n {
            if left[i] > 0 {
                table[usize::from(self.routes.parents[i])] = true;
            }
        }
        table
    }

    /// The nodes that may transmit in the next step.
    pub(crate) fn candidates(&self, left: &[u8; 64]) -> Queue<Candidate, 64>
        ensures { result ≡ ranked deeper (candidates self.now.routes.now left.now (M.nodes self.now.model.now)) }
    {
        let n = usize::from(self.model.nodes());
        let awaiting = self.awaiting(left, n);
        let mut ready = Queue::new();
        // By node over three tables, and the node goes into the candidate.
        for v in 0..n {
            if left[v] > 0 && !awaiting[v] {
                let _ = ready.push(Candidate {
                    depth: Reverse(self.routes.depths[v]),
                    node: v as u8,
                });
            }
        }
        ready
    }
}
