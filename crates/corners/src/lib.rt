//! The corners of a cell as arrays of twelve weights, one for each vertex that a solid can have, by value, and the corner
//! rule run on them.

#![tactic(auto)]

ghost use Rattle.std.specs.Prelude.{◌≡◌, ◌+◌, ◌^◌, ◌<◌};
ghost use Rattle.solids.specs.Triangles.{Side as Triangles·Side};
ghost use Rattle.solids.specs.Solids.{faces};
ghost use Rattle.refusals.specs.Answers.{Tells};
ghost use Rattle.geometry.specs.Weights.{◌⊕◌, unit, total};
ghost use Rattle.geometry.specs.Corners.{child_corners};
ghost use Rattle.geometry.specs.Cells.{Cell, face_corners, corner};
ghost use Rattle.geometry.specs.Neighbours.{Has};
ghost use Rattle.codes.specs.Codes.{cell_of};
ghost use Rattle.corners.specs.Arrays.{at, AreCorners, HasCorner, HasSide};
ghost use Rattle.corners.specs.declared.Corners.{Corners as Arrays·Corners};

use codes::Code;
use geometry::Digit;
use solids::{Corner, Side, Solid};
use std::array;

/// The corners of a triangle, each a weight for each vertex.
#[derive(Clone, Copy, Debug, PartialEq, Eq, Hash)]
pub struct Corners {
    pub tip: [u64; 12],
    pub left: [u64; 12],
    pub right: [u64; 12],
}

// The corner that has weight 1 at one vertex.
fn at_vertex(vertex: u64) -> [u64; 12]
    requires { vertex < 12 }
    ensures { result ≡ unit 12 vertex }
{
    let mut weights = [0; 12];
    // Cast, since `usize::try_from` would have a case that cannot be.
    weights[vertex as usize] = 1;
    weights
}

/// The corners of a face.
// That it is a face of the solid is asked: the trait `Platonic` says why.
pub fn of_face(solid: Solid, face: u64) -> Corners
    requires { face < faces solid }
    ensures { AreCorners result (face_corners solid face) }
{
    Corners {
        tip: at_vertex(solid.vertex(face, Corner::Tip)),
        left: at_vertex(solid.vertex(face, Corner::Left)),
        right: at_vertex(solid.vertex(face, Corner::Right)),
    }
}

// The sum of two corners, weight by weight. All their weights together fit a number, so no sum wraps.
#[tactic(auto, using(crate::proofs::Arrays::sums_fit, crate::proofs::Arrays::sum_is))]
fn sum(a: [u64; 12], b: [u64; 12]) -> [u64; 12]
    requires { total a + total b < 2 ^ 64 }
    ensures { result ≡ a ⊕ b }
{
    array::from_fn(|v| a[v] + b[v])
}

/// The corners of a child. Weights at depth d sum to 2^d, so those of a code never come near what is asked for.
pub fn child(of: Corners, digit: Digit) -> Corners
    requires tip { total of.tip < 2 ^ 63 }
    requires left { total of.left < 2 ^ 63 }
    requires right { total of.right < 2 ^ 63 }
    ensures { AreCorners result (child_corners digit (at of)) }
{
    let t = of.tip;
    let l = of.left;
    let r = of.right;
    match digit {
        Digit::Tip => Corners {
            tip: sum(t, t),
            left: sum(t, l),
            right: sum(t, r),
        },
        Digit::Left => Corners {
            tip: sum(t, l),
            left: sum(l, l),
            right: sum(l, r),
        },
        Digit::Centre => Corners {
            tip: sum(l, r),
            left: sum(t, l),
            right: sum(t, r),
        },
        Digit::Right => Corners {
            tip: sum(t, r),
            left: sum(l, r),
            right: sum(r, r),
        },
    }
}

/// The corners of a cell: from those of its face down, a digit of its path at each level.
pub fn of_cell(code: Code) -> Corners
    ensures { AreCorners result (corner (cell_of code)) }
{
    let path = code.path();
    let mut corners = of_face(code.solid(), code.face());
    for level in 0..code.depth() {
        corners = child(corners, Digit::last_of(path >> (50 - 2 * level)));
    }
    corners
}

/// Whether a cell has a corner, at whichever of its own.
pub fn has_corner(cell: Corners, x: [u64; 12]) -> bool
    ensures { Tells result (HasCorner (at cell) x) }
{
    cell.tip == x || cell.left == x || cell.right == x
}

/// Whether the other cell has both end corners of a side of a cell, at whichever of its own.
pub fn has_side(of: Corners, side: Side, other: Corners) -> bool
    ensures { Tells result (HasSide side (at of) (at other)) }
{
    let t = of.tip;
    let l = of.left;
    let r = of.right;
    match side {
        Side::Left => has_corner(other, t) && has_corner(other, l),
        Side::Right => has_corner(other, t) && has_corner(other, r),
        Side::Vertical => has_corner(other, l) && has_corner(other, r),
    }
}

// Theorem. The function has an empty body and stands for what it ensures, so that the gate asks for it by name.

/// On the corners of two cells, what `has_side` tells is the corner rule.
pub fn the_arrays_of_two_cells_tell_the_corner_rule()
    ensures has { (s : Triangles·Side) (a b : Arrays·Corners) (c n : Cell) → AreCorners a (corner c) → AreCorners b (corner n) → HasSide s (at a) (at b) → Has s c n }
    ensures has_side { (s : Triangles·Side) (a b : Arrays·Corners) (c n : Cell) → AreCorners a (corner c) → AreCorners b (corner n) → Has s c n → HasSide s (at a) (at b) }
{}
