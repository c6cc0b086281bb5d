//! Locating a point of a face at a depth.

#![tactic(auto)]

ghost use Rattle.std.specs.Prelude.{◌≡◌, ℕ, ◌+◌, ◌^◌, ◌≤◌};
ghost use Rattle.solids.specs.Solids.{solid_of};
ghost use Rattle.refusals.specs.Refusals.{Single};
ghost use Rattle.refusals.specs.Answers.{done, reply, Tells};
ghost use Rattle.geometry.specs.Paths.{number};
ghost use Rattle.points.specs.Points.{weights, lower, path_to, point_of};
ghost use Rattle.points.specs.Located.{Located, Least};

use codes::{Code, Fields};
use geometry::Digit;
use refusals::Refusal;

// The sum of a point's weights, 2^26.
const WHOLE: u64 = 0x400_0000;

// A point of a triangle: its weights at the tip, the left and the right corner.
#[derive(Clone, Copy, Debug, PartialEq, Eq)]
struct Weights {
    t: u64,
    l: u64,
    r: u64,
}

// The digit that is chosen one level down, and the point's weights in that child.
#[derive(Clone, Copy, Debug, PartialEq, Eq)]
struct Lowered {
    digit: Digit,
    rest: Weights,
}

impl Weights {
    // Whether they sum to 2^26, as true numbers: a weight above that is told before the sum could wrap.
    fn sums_to_whole(self) -> bool
        ensures { Tells result (self.t + self.l + self.r ≡ 2 ^ 26) }
    {
        self.t <= WHOLE && self.l <= WHOLE && self.r <= WHOLE && self.t + self.l + self.r == WHOLE
    }

    // One level down.
    fn lowered(self) -> Lowered
        requires { self.t + self.l + self.r ≤ 2 ^ 26 }
        ensures digit { result.digit ≡ (lower (weights self.t self.l self.r)).digit }
        ensures rest { weights result.rest.t result.rest.l result.rest.r ≡ (lower (weights self.t self.l self.r)).rest }
    {
        let Weights { t, l, r } = self;
        let h = (t + l + r) / 2;
        if h <= t {
            return Lowered {
                digit: Digit::Tip,
                rest: Weights { t: t - h, l, r },
            };
        }
        if h <= l {
            return Lowered {
                digit: Digit::Left,
                rest: Weights { t, l: l - h, r },
            };
        }
        if r <= h {
            return Lowered {
                digit: Digit::Centre,
                rest: Weights {
                    t: h - t,
                    l: h - r,
                    r: h - l,
                },
            };
        }
        Lowered {
            digit: Digit::Right,
            rest: Weights { t, l, r: r - h },
        }
    }

    // The path down to a depth, as a number with the last digit lowest. The depth is a number: a type of depths would be opened again
    // to count them.
    fn descend(self, depth: u64) -> u64
        requires whole { self.t + self.l + self.r ≡ 2 ^ 26 }
        requires depth { depth ≤ 26 }
        ensures { result ≡ number (path_to (weights self.t self.l self.r) depth) }
    {
        let mut rest = self;
        let mut path = 0;
        for _ in 0..depth {
            let next = rest.lowered();
            rest = next.rest;
            path = path * 4 + next.digit.number();
        }
        path
    }
}

/// The code of the cell of a depth in which a point is located, told by its weights at the tip, the left and the right corner of the
/// face. The numbers are a caller's, and untested: `Located` speaks of any.
pub fn locate(solid: u64, face: u64, t: u64, l: u64, r: u64, depth: u64) -> Result<Code, Refusal>
    ensures { Located solid face t l r depth (reply result) }
{
    let head = Fields {
        solid,
        face,
        path: 0,
        depth,
    };
    head.check()?;
    let point = Weights { t, l, r };
    if !point.sums_to_whole() {
        return Err(Refusal::Point);
    }
    let path = point.descend(depth) << (52 - 2 * depth);
    let fields = Fields { path, ..head };
    Ok(Code::new(fields.join()))
}

// Theorems. Each function has an empty body and stands for what it ensures, so that the gate asks for it by name.

/// For any input locating has one answer.
pub fn locating_has_one_answer()
    ensures { (s f t l r d : ℕ) → Single (Located s f t l r d) }
{}

/// The cell that is located holds the point, and its code is the least of that face and depth that does.
pub fn the_cell_located_is_the_least_that_holds_the_point()
    ensures { (s f t l r d x : ℕ) → Located s f t l r d (done x) → Least s f d (point_of (solid_of s) f (weights t l r)) x }
{}
