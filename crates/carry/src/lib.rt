//! The step on a whole path at once, by masks that mark digits and an addition whose carry runs off the top: no loop and no
//! branch. A path stands left-aligned in a word: its first digit in the top two bits, zeros after its last digit. A depth is a number:
//! a type of depths up to 26 would be opened again in each shift.

#![tactic(auto)]

ghost use Rattle.std.specs.Prelude.{◌≡◌, ◌-◌, ◌%◌, ◌^◌, ◌≤◌};
ghost use Rattle.carry.specs.Carries.{Carries, Mirrors};

use geometry::Walked;
use solids::Side;

// The low bit of each digit.
const EVEN: u64 = 0x5555_5555_5555_5555;

// The high bit of each digit.
const ODD: u64 = 0xaaaa_aaaa_aaaa_aaaa;

/// Ones after the last digit of a path of `depth` digits.
#[tactic(auto, using(crate::proofs::Words::shifted))]
pub fn tail(depth: u64) -> u64
    requires { depth ≤ 26 }
    ensures { result ≡ 4 ^ (32 - depth) - 1 }
{
    u64::MAX >> (2 * depth)
}

/// The walk over a path of `depth` digits. It reaches the digits from the last up to the first that stops it. To the right
/// each of them becomes the next of 00, 01, 10, 11 in the round, to the left the one before; vertically the high bit of the
/// digit that stops it changes.
pub fn carry(side: Side, path: u64, depth: u64) -> Walked
    requires depth { depth ≤ 26 }
    requires tail { path % 4 ^ (32 - depth) ≡ 0 }
    ensures { Carries side depth path result.path result.crossed }
{
    // All ones in the direction of that name, zeros in another. They are made from the number: a `match` costs time.
    let side = side.number();
    let right = 0u64.wrapping_sub(side & 1);
    let vertical = 0u64.wrapping_sub(side >> 1);
    // The high bit of each digit of the path; the low bit of each digit, where its high bit stands.
    let high = !tail(depth) & ODD;
    let low = (path & EVEN) << 1;
    // The walk stops to the left where the high bit is 1, to the right where the two bits differ, vertically where the low
    // bit is 0.
    let stops = ((path & !vertical) ^ (low & (right | vertical)) ^ vertical) & high;
    // One is added at the bottom. The carry runs through the places after the last digit and through all digits that climb,
    // up to the first that stops, or it is lost: then nothing is left.
    let climbs = !stops;
    let sum = climbs.wrapping_add(1);
    let reached = (climbs ^ sum) & high;
    // The high bit changes to the right where the low bit is 1, else where it is 0. Vertically the low bit is kept.
    let flips = (reached & (low ^ !right)) | (reached >> 1 & !vertical);
    Walked {
        path: path ^ flips,
        crossed: sum == 0,
    }
}

/// The path over a mirrored seam, for any depth: every 01 made 11 and every 11 made 01.
#[tactic(auto, using(crate::proofs::Carries::by_mirror))]
pub fn mirror(path: u64) -> u64
    ensures { Mirrors path result }
{
    path ^ ((path & EVEN) << 1)
}
