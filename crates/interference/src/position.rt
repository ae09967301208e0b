ghost use Rattle.std.specs.Prelude.{◌≡◌, ◌≤◌};
ghost use Rattle.interference.specs.Grid.{alike, cell, cell_of, clear, inside, near};

/// A position in the plane, in centimetres, or a cell of a grid over it.
#[derive(Clone, Copy, Default, PartialEq, Eq, Debug)]
pub struct Position {
    pub x: i32,
    pub y: i32,
}

/// The cell that z lies in, on a line of cells with this side.
fn cell(side: u32, z: i32) -> i32
    requires { (1 ≤ side) × (side ≤ 100000) }
    ensures { result ≡ cell side z }
{
    z.div_euclid(side as i32)
}

/// Whether both numbers are even, or both odd.
fn alike(a: i32, b: i32) -> bool
    ensures { result ≡ alike a b }
{
    a.rem_euclid(2) == b.rem_euclid(2)
}

/// Whether z is within a million of 0.
fn near(z: i32) -> bool
    ensures { result ≡ near z }
{
    -1_000_000 <= z && z <= 1_000_000
}

impl Position {
    /// The cell of the position, in a grid of cells with this side.
    pub(crate) fn cell_of(self, side: u32) -> Position
        requires { (1 ≤ side) × (side ≤ 100000) }
        ensures { result ≡ cell_of side self }
    {
        Position {
            x: cell(side, self.x),
            y: cell(side, self.y),
        }
    }

    /// Whether both coordinates are within a million centimetres of 0.
    pub(crate) fn inside(self) -> bool
        ensures { result ≡ inside self }
    {
        near(self.x) && near(self.y)
    }

    /// Whether the cells differ, but agree in x and in y modulo 2.
    pub(crate) fn clear(self, other: Position) -> bool
        ensures { result ≡ clear self other }
    {
        self != other && alike(self.x, other.x) && alike(self.y, other.y)
    }
}
