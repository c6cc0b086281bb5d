//! The corner rule as mathematics: cells, paths, corners as lists of weights, and the step by digits. The code is a digit, and
//! what a walk over a path comes to.

#![tactic(auto)]

ghost use Rattle.std.specs.Prelude.{◌≡◌, ◌%◌, ◌^◌};
ghost use Rattle.solids.specs.Triangles.{Corner, Side, back};
ghost use Rattle.geometry.specs.Paths.{digit_no, digit_of, DigitTried};
ghost use Rattle.geometry.specs.Weights.{total};
ghost use Rattle.geometry.specs.Cells.{Cell, WellFormed, depth_of, corner, parent};
ghost use Rattle.geometry.specs.Steps.{way, step};
ghost use Rattle.geometry.specs.Neighbours.{Neighbour};
ghost use Rattle.geometry.specs.Parts.{Part};

use refusals::Refusal;

/// A digit of a path: which child of its parent a cell is. Numbers: tip 0, left 1, centre 2, right 3.
#[derive(Clone, Copy, Debug, PartialEq, Eq, Hash)]
pub enum Digit {
    Tip,
    Left,
    Centre,
    Right,
}

impl Digit {
    /// The digit in the last two bits of a path.
    pub fn last_of(path: u64) -> Digit
        ensures { result ≡ digit_of (path % 4) }
    {
        match path % 4 {
            0 => Digit::Tip,
            1 => Digit::Left,
            2 => Digit::Centre,
            _ => Digit::Right,
        }
    }

    pub fn number(self) -> u64
        ensures { result ≡ digit_no self }
    {
        match self {
            Digit::Tip => 0,
            Digit::Left => 1,
            Digit::Centre => 2,
            Digit::Right => 3,
        }
    }
}

impl TryFrom<u64> for Digit {
    type Error = Refusal;

    ghost try_from_gives = { DigitTried };

    fn try_from(digit: u64) -> Result<Digit, Refusal> {
        match digit {
            0 => Ok(Digit::Tip),
            1 => Ok(Digit::Left),
            2 => Ok(Digit::Centre),
            3 => Ok(Digit::Right),
            _ => Err(Refusal::Digit),
        }
    }
}

/// Where a walk over a path leads: the path with its replacements, and whether it passed the first digit. The path counts in both
/// cases.
#[derive(Clone, Copy, Debug, PartialEq, Eq)]
pub struct Walked {
    pub path: u64,
    pub crossed: bool,
}

// Theorems. Each function has an empty body and stands for what it ensures, so that the gate asks for it by name.

/// The weights of every corner at depth d sum to 2^d.
pub fn weights_at_a_depth_sum_to_its_power_of_two()
    ensures { (c : Cell) → WellFormed c → (p : Corner) → total (corner c p) ≡ 2 ^ depth_of c }
{}

/// The step by digits leads to a neighbour of the corner rule: another cell of the same solid and depth that has both end
/// corners of the side.
pub fn the_step_gives_a_neighbour()
    ensures { (s : Side) (c : Cell) → WellFormed c → Neighbour s c (step s c) }
{}

/// It is the one such cell.
pub fn there_is_no_other_neighbour()
    ensures { (s : Side) (c n : Cell) → WellFormed c → Neighbour s c n → n ≡ step s c }
{}

/// Left undoes right, right undoes left, vertical undoes itself.
pub fn a_step_back_undoes_a_step()
    ensures { (s : Side) (c : Cell) → WellFormed c → step (back s) (step s c) ≡ c }
{}

/// The way back is inside the face, over a straight seam or over a mirrored one, as the way here is.
pub fn the_way_back_is_of_the_same_kind()
    ensures { (s : Side) (c : Cell) → WellFormed c → way (back s) (step s c) ≡ way s c }
{}

/// Where a cell's side is part of its parent's side, the parent of the cell across is the cell across from the parent.
pub fn the_parent_steps_along()
    ensures { (s : Side) (c : Cell) → WellFormed c → Part s c → parent (step s c) ≡ step s (parent c) }
{}
