//! The level test of leaves that tile: whether those that share a stretch of a side differ by at most one level. For each leaf
//! a look at its last two digits, and for each side that they ask for one step of its parent and one search. Most cells beside
//! a leaf's parent stand near the leaf: `at`, its index, is handed on as the search's guess.
//! That a code is one of the solid that the tiles tile (`TiledFor`) ties the two, and neither type can hold it.

#![tactic(auto)]

ghost use Rattle.std.specs.Prelude.{◌≡◌, ◌+◌, ◌*◌, ◌<◌};
ghost use Rattle.solids.specs.Triangles.{side_no};
ghost use Rattle.refusals.specs.Answers.{Tells};
ghost use Rattle.codes.specs.Codes.{depth};
ghost use Rattle.codes.specs.Places.{parent_code, last_digit, place};
ghost use Rattle.steps.specs.Stepped.{step_code};
ghost use Rattle.soundness.specs.Regions.{InFaces};
ghost use Rattle.soundness.specs.Inner.{Present, Fine, Rows};
ghost use Rattle.balance.specs.Tiled.{TiledFor, SidesFine};

use codes::Code;
use solids::Side;
use tiling::Tiles;

// The last two digits of a code, side by side: one shift and one mask for each leaf, as the test looks at every one of them.
fn last_two(code: Code) -> u64
    requires { 0 < depth code }
    ensures { result ≡ last_digit (parent_code code) * 4 + last_digit code }
{
    code.bits() >> (57 - 2 * code.depth()) & 15
}

// Whether some leaf is the cell or lies inside it, for a cell on the faces that they tile: the first leaf that is not less
// begins where the cell begins, or it lies past the cell.
fn has_some(tiles: &Tiles<'_>, at: usize, cell: Code) -> bool
    requires tiled { TiledFor tiles.now.faces tiles.now.leaves cell }
    requires here { InFaces tiles.now.faces (place cell) }
    ensures { Tells result (Present tiles.now.leaves cell) }
{
    let codes = tiles.codes();
    match codes.get(slots::below_near(codes, cell.bits(), at)) {
        Some(&leaf) => Code::new(leaf).place() == cell.place(),
        None => false,
    }
}

// Whether a cell lies outside the faces, or some leaf is the cell or lies inside it.
fn is_fine(tiles: &Tiles<'_>, at: usize, cell: Code) -> bool
    requires { TiledFor tiles.now.faces tiles.now.leaves cell }
    ensures { Tells result (Fine tiles.now.faces tiles.now.leaves cell) }
{
    !tiles.faces().has_place(cell.place()) || has_some(tiles, at, cell)
}

// Whether the cell across a side of a leaf's parent is fine.
fn side_fine(tiles: &Tiles<'_>, at: usize, leaf: Code, side: Side) -> bool
    requires tiled { TiledFor tiles.now.faces tiles.now.leaves leaf }
    requires below { 0 < depth leaf }
    ensures { Tells result (Fine tiles.now.faces tiles.now.leaves (step_code (side_no side) (parent_code leaf))) }
{
    let parent = leaf.parent();
    is_fine(tiles, at, steps::step_of(parent, side))
}

// Whether every side that a leaf's last two digits ask for is fine. Most leaves ask for none.
fn sides_fine(tiles: &Tiles<'_>, at: usize, leaf: Code) -> bool
    requires { TiledFor tiles.now.faces tiles.now.leaves leaf }
    ensures { Tells result (SidesFine tiles.now.faces tiles.now.leaves leaf) }
{
    if leaf.depth() < 2 {
        return true;
    }
    match last_two(leaf) {
        0b0000 => {
            side_fine(tiles, at, leaf, Side::Left) && side_fine(tiles, at, leaf, Side::Right)
        }
        0b0100 => side_fine(tiles, at, leaf, Side::Left),
        0b1100 => side_fine(tiles, at, leaf, Side::Right),
        0b0101 | 0b1101 => side_fine(tiles, at, leaf, Side::Vertical),
        _ => true,
    }
}

/// Whether the leaves pass the level test.
pub fn balanced(tiles: &Tiles<'_>) -> bool
    ensures { Tells result (Rows tiles.now.faces step_code tiles.now.leaves) }
{
    for (at, &leaf) in tiles.codes().iter().enumerate() {
        if !sides_fine(tiles, at, Code::new(leaf)) {
            return false;
        }
    }
    true
}
