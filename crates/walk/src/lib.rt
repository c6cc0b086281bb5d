//! The step by digits: the walk over a path, from its last digit upwards. A depth is a number: a type of depths would be opened again to
//! count them.

#![tactic(auto)]

ghost use Rattle.std.specs.Prelude.{◌≡◌, ◌^◌, ◌≤◌, ◌<◌};
ghost use Rattle.walk.specs.Walks.{turn_of, Walks};

use geometry::Digit;
pub use geometry::Walked;
use solids::Side;

/// What the walk does at a digit: it stops, or it climbs; in both cases with the digit's replacement.
#[derive(Clone, Copy, Debug, PartialEq, Eq)]
pub enum Turn {
    Stop(Digit),
    Climb(Digit),
}

// The turn in a direction at a digit: "A match over direction and digit gives replacement and stop or climb."
#[tactic(auto, unfolding(crate::specs::Walks::turn_of, geometry::specs::Steps::stops, geometry::specs::Steps::replaced))]
fn turn_at(side: Side, digit: Digit) -> Turn
    ensures { result ≡ turn_of side digit }
{
    match side {
        Side::Left => match digit {
            Digit::Tip => Turn::Climb(Digit::Right),
            Digit::Left => Turn::Climb(Digit::Tip),
            Digit::Centre => Turn::Stop(Digit::Left),
            Digit::Right => Turn::Stop(Digit::Centre),
        },
        Side::Right => match digit {
            Digit::Tip => Turn::Climb(Digit::Left),
            Digit::Left => Turn::Stop(Digit::Centre),
            Digit::Centre => Turn::Stop(Digit::Right),
            Digit::Right => Turn::Climb(Digit::Tip),
        },
        Side::Vertical => match digit {
            Digit::Tip => Turn::Stop(Digit::Centre),
            Digit::Centre => Turn::Stop(Digit::Tip),
            // One arm: as two they are compiled to two ways, and over a seam no predictor learns which comes next.
            Digit::Left | Digit::Right => Turn::Climb(digit),
        },
    }
}

/// The walk over a path of `depth` digits, the last digit lowest.
pub fn walk(side: Side, path: u64, depth: u64) -> Walked
    requires depth { depth ≤ 26 }
    requires path { path < 4 ^ depth }
    ensures { Walks side path depth result.path result.crossed }
{
    // What the digits passed have become, what the next digit counts, and the digits from there upwards.
    let mut low = 0;
    let mut place = 1;
    let mut rest = path;
    for _ in 0..depth {
        match turn_at(side, Digit::last_of(rest)) {
            Turn::Stop(digit) => {
                return Walked {
                    path: low + place * (rest / 4 * 4 + digit.number()),
                    crossed: false,
                };
            }
            Turn::Climb(digit) => {
                low += place * digit.number();
                place *= 4;
                rest /= 4;
            }
        }
    }
    Walked {
        path: low,
        crossed: true,
    }
}
