ghost use Rattle.std.specs.Prelude.{◌≡◌, ◌<◌, ◌≤◌, MatchResult};
ghost use Rattle.interference.specs.Grid.{GridMeant, GridRefused, cell_of, grid_conflict, position_at};
ghost use Rattle.interference.specs.Planes.{grid_swap};
ghost use Rattle.std.proofs.Common.{rules};

use crate::fault::ModelFault;
use crate::model::Interference;
use crate::position::Position;
use crate::transmission::Transmission;

/// Nodes in a plane that is cut into square cells; a cell's neighbours keep silent while it sends.
// An array beside the number of nodes, and no ArrayVec: a model is Copy, which an ArrayVec is not.
#[derive(Clone, Copy)]
pub struct GridModel {
    count: u8,
    side: u32,
    positions: [Position; 64],
    ghost least: { 1 ≤ count },
    ghost most: { count ≤ 64 },
    ghost low: { 1 ≤ side },
    ghost high: { side ≤ 100000 },
}

impl GridModel {
    /// The model of a grid with a position for each node, or the first reason to refuse it.
    pub fn open(side: u32, positions: &[Position]) -> Result<GridModel, ModelFault>
        ensures { MatchResult result (λ m. GridMeant side positions.now m.count (grid_conflict m.count m.side m.positions)) (λ f. GridRefused side positions.now f) }
    {
        let n = positions.len();
        if n < 1 || n > 64 {
            return Err(ModelFault::NodeCount);
        }
        if side < 1 || side > 100_000 {
            return Err(ModelFault::Side);
        }
        let mut own = [Position::default(); 64];
        for (i, p) in positions.iter().enumerate() {
            if !p.inside() {
                return Err(ModelFault::Coordinate(i));
            }
            own[i] = *p;
        }
        Ok(GridModel {
            count: n as u8,
            side,
            positions: own,
        })
    }

    /// The cell that node k lies in.
    fn cell(&self, k: u8) -> Position
        requires { k < 64 }
        ensures { result ≡ cell_of self.now.side (position_at self.now.positions k) }
    {
        self.positions[k as usize].cell_of(self.side)
    }
}

impl Interference for GridModel {
    ghost nodes = { λ m. m.count };

    ghost conflict = { λ m a b. grid_conflict m.count m.side m.positions a b };

    ghost least = { Prim.search rules };

    ghost most = { Prim.search rules };

    ghost symmetric = { λ p a b. grid_swap p.count p.side p.positions a b };

    ghost shared = { Prim.search rules };

    ghost improper = { Prim.search rules };

    fn nodes(&self) -> u8 {
        self.count
    }

    fn conflicts(&self, a: Transmission, b: Transmission) -> bool {
        !a.apart(self.count, b) || !self.cell(a.from).clear(self.cell(b.from))
    }
}
