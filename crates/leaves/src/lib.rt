//! The leaves of a mesh: found, counted out, written into slots, split and joined there. C lends one slice, leaves first and then zeros:
//! so what changes it is told how many leaves there are.

#![tactic(auto)]

ghost use Rattle.std.specs.Prelude.{◌≡◌, ◌+◌, ◌<◌, ◌≤◌, length, slice_index};
ghost use Rattle.solids.specs.Solids.{solid_no};
ghost use Rattle.codes.specs.Codes.{IsCode, depth};
ghost use Rattle.codes.specs.Places.{child_code};
ghost use Rattle.soundness.specs.Leaves.{Ascends, leaves, pad};
ghost use Rattle.soundness.specs.Changes.{children, fresh_leaves, refined, coarsened};
ghost use Rattle.leaves.specs.Leaves.{Covered, Filled, LeafAt, FourAt, RunAt};

use codes::{Code, Fields};
use geometry::Digit;
use solids::Solid;
use soundness::regions::Faces;

/// A run of leaves: the place of the first, and the place after the last.
// A type of its own, since `Range` is not `Copy`.
#[derive(Clone, Copy, Debug, PartialEq, Eq)]
pub struct Run {
    pub start: usize,
    pub end: usize,
}

/// Where a code stands among the leaves: any that ascend.
pub fn leaf_at(leaves: &[u64], code: u64) -> Option<usize>
    requires { Ascends leaves.now }
    ensures { LeafAt leaves.now code result }
{
    let at = slots::below(leaves, code);
    if *leaves.get(at)? == code {
        Some(at)
    } else {
        None
    }
}

// The four children of a cell, ascending. That it has children is asked here and below: `Code::child` says why.
#[tactic(auto, using(codes::proofs::Places::child_place))]
fn children(cell: Code) -> [u64; 4]
    requires { depth cell < 26 }
    ensures children { result ≡ children cell }
    ensures code { IsCode cell }
{
    // That the cell is a code is told with its number.
    let _number = cell.bits();
    [
        cell.child(Digit::Tip).bits(),
        cell.child(Digit::Left).bits(),
        cell.child(Digit::Centre).bits(),
        cell.child(Digit::Right).bits(),
    ]
}

/// Where the four children of a cell stand among the leaves: side by side, or not all of them.
pub fn four_at(leaves: &[u64], cell: Code) -> Option<usize>
    requires covered { Covered leaves.now }
    requires depth { depth cell < 26 }
    ensures { FourAt leaves.now cell result }
{
    let children = children(cell);
    let at = leaf_at(leaves, children[0])?;
    let four = leaves.get(at..at + 4)?;
    if four == children.as_slice() {
        Some(at)
    } else {
        None
    }
}

/// The leaves that are a cell of any solid or lie inside it. They stand side by side: a code in the cell is at least the cell's
/// own, and less than the first code after the cell.
pub fn run_of(leaves: &[u64], cell: Code) -> Run
    requires { Covered leaves.now }
    ensures { RunAt leaves.now cell result }
{
    let depth = cell.depth();
    let past = cell.bits() - depth + (1 << (57 - 2 * depth));
    Run {
        start: slots::below(leaves, cell.bits()),
        end: slots::below(leaves, past),
    }
}

/// How many faces of the solid are in the set.
pub fn fresh_count(solid: Solid, faces: Faces) -> usize
    ensures { result ≡ length (fresh_leaves (solid_no solid) faces) }
{
    (0..solid.faces())
        .filter(|&face| faces.contains(face))
        .count()
}

/// Writes the faces of the set in order, and then zeros.
pub fn fresh_into(slots: &mut [u64], solid: Solid, faces: Faces)
    requires { length (fresh_leaves (solid_no solid) faces) ≤ length slots.old }
    ensures { slots.new ≡ pad (length slots.old) (fresh_leaves (solid_no solid) faces) }
{
    // Counted by hand: where the faces end, the zeros begin.
    let mut count = 0;
    for face in 0..solid.faces() {
        if faces.contains(face) {
            slots[count] = Fields {
                solid: solid.number(),
                face,
                path: 0,
                depth: 0,
            }
            .join();
            count += 1;
        }
    }
    slots::clear_from(slots, count);
}

/// Splits the leaf at `at`: its four children stand in its place, and the later leaves move up three slots.
pub fn split_leaf(slots: &mut [u64], count: usize, at: usize, leaf: Code)
    requires filled { Filled slots.old count }
    requires room { count + 3 ≤ length slots.old }
    requires at { at < count }
    requires leaf { slice_index slots.old at ≡ leaf }
    requires depth { depth leaf < 26 }
    ensures { slots.new ≡ pad (length slots.old) (refined leaf (leaves slots.old)) }
{
    slots::split(slots, at, count, children(leaf));
}

/// Joins the four leaves from `at` on, the children of the cell: they become that one leaf, and the later leaves move down
/// three slots. That they are the children is asked of the first alone: the others stand after it.
pub fn join_leaves(slots: &mut [u64], count: usize, at: usize, cell: u64)
    requires filled { Filled slots.old count }
    requires at { at + 4 ≤ count }
    requires first { slice_index slots.old at ≡ child_code cell 0 }
    ensures { slots.new ≡ pad (length slots.old) (coarsened cell (leaves slots.old)) }
{
    slots::join(slots, at, count, cell);
}
