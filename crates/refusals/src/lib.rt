//! Why a call is refused.

#![tactic(auto)]

ghost use Rattle.std.specs.Prelude.{◌≡◌};
ghost use Rattle.refusals.specs.Answers.{number, value};

use thiserror::Error;

/// Why a call is refused. Each cause has a number, which C sees.
#[derive(Clone, Copy, Debug, PartialEq, Eq, Error)]
pub enum Refusal {
    #[error("no such solid")]
    Solid,
    #[error("no such face on the solid")]
    Face,
    #[error("deeper than 26 levels")]
    Depth,
    #[error("a path bit set after the last digit")]
    Tail,
    #[error("no such direction")]
    Direction,
    #[error("no such child digit")]
    Digit,
    #[error("a cell of depth 26 has no children")]
    Deep,
    #[error("a cell of depth 0 has no parent")]
    Root,
    #[error("weights that do not sum to 2^26")]
    Point,
    #[error("more slots than a mesh may have")]
    Buffer,
    #[error("no sound mesh")]
    Mesh,
    #[error("no leaf of this mesh")]
    NotLeaf,
    #[error("a child of the cell is no leaf")]
    NotFour,
    /// By a leaf, told by its number: the type of codes stands above this crate.
    #[error("blocked by the leaf {0:016x}")]
    Blocked(u64),
    #[error("too few slots")]
    Room,
}

impl Refusal {
    /// From 1, in the order above.
    pub fn number(self) -> u64
        ensures { result ≡ number self }
    {
        match self {
            Refusal::Solid => 1,
            Refusal::Face => 2,
            Refusal::Depth => 3,
            Refusal::Tail => 4,
            Refusal::Direction => 5,
            Refusal::Digit => 6,
            Refusal::Deep => 7,
            Refusal::Root => 8,
            Refusal::Point => 9,
            Refusal::Buffer => 10,
            Refusal::Mesh => 11,
            Refusal::NotLeaf => 12,
            Refusal::NotFour => 13,
            Refusal::Blocked(_) => 14,
            Refusal::Room => 15,
        }
    }

    /// The least blocking leaf; 0 for any other cause.
    pub fn value(self) -> u64
        ensures { result ≡ value self }
    {
        match self {
            Refusal::Blocked(leaf) => leaf,
            _ => 0,
        }
    }
}
