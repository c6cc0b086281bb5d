//! The corner rule run on arrays of weights: for every cell of a solid and depth, and each of its sides, all cells of that
//! solid and depth are asked for both end corners. Exactly one other cell has them, and both steps lead to it. A line is the
//! solid, the depth, how many cells and sides there are, and over how many sides all of that holds.

#![tactic(auto)]

ghost use Rattle.std.specs.Prelude.{◌*◌, ◌≤◌, length};

use codes::Code;
use corners::Corners;
use refusals::Refusal;
use solids::{Side, Solid};
use std::{array, io};

#[derive(Clone, Copy)]
struct Cell {
    code: u64,
    corners: Corners,
}

impl Cell {
    // A cell by its place among those of its depth: face and path are one number. Its corners have no weight at all where
    // that number is no code.
    fn at(solid: Solid, depth: u64, place: usize) -> Cell
        requires { depth ≤ 26 }
    {
        let code = solid.number() << 62 | (place as u64) << (57 - 2 * depth) | depth;
        let corners = match Code::try_from(code) {
            Ok(code) => corners::of_cell(code),
            Err(_) => Corners {
                tip: [0; 12],
                left: [0; 12],
                right: [0; 12],
            },
        };
        Cell { code, corners }
    }

    // The other cell that has both end corners of a side, if there is exactly one.
    fn across(self, side: Side, cells: &[Cell]) -> Option<u64> {
        let mut across = cells.iter().filter(|other| {
            other.code != self.code && corners::has_side(self.corners, side, other.corners)
        });
        let only = across.next()?.code;
        match across.next() {
            None => Some(only),
            Some(_) => None,
        }
    }

    // Whether exactly one other cell lies across a side, and both steps lead to it.
    fn agrees(self, side: Side, cells: &[Cell]) -> bool {
        match self.across(side, cells) {
            Some(there) => {
                leads_to(steps::step(self.code, side.number()), there)
                    && leads_to(steps::walk(self.code, side.number()), there)
            }
            None => false,
        }
    }
}

fn leads_to(answer: Result<Code, Refusal>, there: u64) -> bool {
    answer.is_ok_and(|code| code.bits() == there)
}

// Over how many sides of all cells that holds.
fn agreeing(cells: &[Cell]) -> usize
    requires { length cells.now ≤ 320 }
    ensures { result ≤ 3 * length cells.now }
{
    let mut count = 0;
    for &cell in cells {
        for side in Side::ALL {
            if cell.agrees(side, cells) {
                count += 1;
            }
        }
    }
    count
}

// Runs the rule on all cells of a depth, and writes the line.
fn at_depth<const CELLS: usize>(rt: &impl Print, solid: Solid, depth: u64) -> io::Result<()>
    requires depth { depth ≤ 26 }
    requires cells { CELLS ≤ 320 }
{
    let cells: [Cell; CELLS] = array::from_fn(|place| Cell::at(solid, depth, place));
    let number = solid.number();
    let sides = 3 * CELLS;
    let agreeing = agreeing(&cells);
    println!(rt; "solid {number}, depth {depth}: {CELLS} cells, {sides} sides, {agreeing} agree")
}

fn main(rt: HostRuntime) -> io::Result<()> {
    at_depth::<4>(&rt, Solid::Tetrahedron, 0)?;
    at_depth::<16>(&rt, Solid::Tetrahedron, 1)?;
    at_depth::<64>(&rt, Solid::Tetrahedron, 2)?;
    at_depth::<8>(&rt, Solid::Octahedron, 0)?;
    at_depth::<32>(&rt, Solid::Octahedron, 1)?;
    at_depth::<128>(&rt, Solid::Octahedron, 2)?;
    at_depth::<20>(&rt, Solid::Icosahedron, 0)?;
    at_depth::<80>(&rt, Solid::Icosahedron, 1)?;
    at_depth::<320>(&rt, Solid::Icosahedron, 2)?;
    at_depth::<256>(&rt, Solid::Tetrahedron, 3)
}
