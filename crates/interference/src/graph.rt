ghost use Rattle.std.specs.Prelude.{◌≡◌, ◌<◌, ◌≤◌, MatchResult};
ghost use Rattle.interference.specs.Graph.{EdgesMeant, EdgesRefused, WordsMeant, WordsRefused, graph_conflict, word_edge};
ghost use Rattle.std.proofs.Common.{rules};

use crate::bits::{bit, reaches, with_bit};
use crate::fault::ModelFault;
use crate::model::Interference;
use crate::transmission::Transmission;

/// An edge of the survey: `to` hears `from`.
#[derive(Clone, Copy, Default, PartialEq, Eq, Debug)]
pub struct Edge {
    pub from: u8,
    pub to: u8,
}

/// Who hears whom, as a directed graph: bit b of word a is the edge from a to b.
// An array beside the number of nodes, and no ArrayVec: a model is Copy, which an ArrayVec is not.
#[derive(Clone, Copy)]
pub struct GraphModel {
    count: u8,
    words: [u64; 64],
    ghost least: { 1 ≤ count },
    ghost most: { count ≤ 64 },
}

impl GraphModel {
    /// The model of a graph given by a word for each node, or the first reason to refuse it.
    pub fn from_words(words: &[u64]) -> Result<GraphModel, ModelFault>
        ensures { MatchResult result (λ m. WordsMeant words.now m.count (graph_conflict m.count (word_edge m.words))) (λ f. WordsRefused words.now f) }
    {
        let n = words.len();
        if n < 1 || n > 64 {
            return Err(ModelFault::NodeCount);
        }
        let mut own = [0u64; 64];
        for (i, w) in words.iter().enumerate() {
            if reaches(*w, n) {
                return Err(ModelFault::EdgeOutside(i));
            }
            own[i] = *w;
        }
        Ok(GraphModel {
            count: n as u8,
            words: own,
        })
    }

    /// The model of a graph of so many nodes given by its edges, or the first reason to refuse it.
    pub fn from_edges(nodes: u8, edges: &[Edge]) -> Result<GraphModel, ModelFault>
        ensures { MatchResult result (λ m. EdgesMeant nodes edges.now m.count (graph_conflict m.count (word_edge m.words))) (λ f. EdgesRefused nodes edges.now f) }
    {
        if nodes < 1 || nodes > 64 {
            return Err(ModelFault::NodeCount);
        }
        let mut own = [0u64; 64];
        for (i, e) in edges.iter().enumerate() {
            if e.from >= nodes || e.to >= nodes {
                return Err(ModelFault::EdgeOutside(i));
            }
            own[e.from as usize] = with_bit(own[e.from as usize], e.to);
        }
        Ok(GraphModel {
            count: nodes,
            words: own,
        })
    }

    /// Whether there is an edge from node a to node b.
    fn edge(&self, a: u8, b: u8) -> bool
        requires { (a < 64) × (b < 64) }
        ensures { result ≡ word_edge self.now.words a b }
    {
        bit(self.words[a as usize], b)
    }
}

impl Interference for GraphModel {
    ghost nodes = { λ m. m.count };

    ghost conflict = { λ m a b. graph_conflict m.count (word_edge m.words) a b };

    ghost least = { Prim.search rules };

    ghost most = { Prim.search rules };

    ghost symmetric = { Prim.search rules };

    ghost shared = { Prim.search rules };

    ghost improper = { Prim.search rules };

    fn nodes(&self) -> u8 {
        self.count
    }

    fn conflicts(&self, a: Transmission, b: Transmission) -> bool {
        !a.apart(self.count, b) || self.edge(a.from, b.to) || self.edge(b.from, a.to)
    }
}
