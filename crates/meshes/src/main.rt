//! The calls on a mesh, on chosen slots: sound meshes of the three solids, ones with a single damage, and slices that are too
//! short or too long. A line is the call, what it was given and what it answered, in hexadecimal: the number, the value, and
//! after a colon the slots as the call left them, or the part of them that it handed out.

#![tactic(auto)]

ghost use Rattle.std.specs.Prelude.{◌<◌};

use refusals::Refusal;
use solids::Solid;
use soundness::Met;
use soundness::regions::Faces;
use std::fmt::Write;
use std::{fmt, io};
use tiling::Tiles;

// Slots in hexadecimal, each after a space.
#[derive(Clone, Copy)]
struct Slots<'a>(&'a [u64]);

impl fmt::Display for Slots<'_> {
    fn fmt<W: fmt::Write>(&self, f: &mut fmt::Formatter<W>) -> fmt::Result {
        for slot in self.0 {
            write!(f, " {slot:x}")?;
        }
        Ok(())
    }
}

// The number and the value of what a change answered.
#[derive(Clone, Copy)]
struct Answer(Result<(), Refusal>);

impl fmt::Display for Answer {
    fn fmt<W: fmt::Write>(&self, f: &mut fmt::Formatter<W>) -> fmt::Result {
        match self.0 {
            Ok(()) => f.write_str("0 0"),
            Err(refusal) => write!(f, "{:x} {:x}", refusal.number(), refusal.value()),
        }
    }
}

// The level difference and the leaves of what a side meets.
#[derive(Clone, Copy)]
struct Beside(Met);

impl fmt::Display for Beside {
    fn fmt<W: fmt::Write>(&self, f: &mut fmt::Formatter<W>) -> fmt::Result {
        match self.0 {
            Met::Larger(leaf) => write!(f, "-1 {leaf:x}"),
            Met::Equal(leaf) => write!(f, "0 {leaf:x}"),
            Met::Smaller(one, other) => write!(f, "1 {one:x} {other:x}"),
            Met::Open => f.write_str("open"),
        }
    }
}

fn fresh(rt: &impl Print, slots: &mut [u64], solid: u64) -> io::Result<()> {
    let answer = Answer(mesh::fresh(slots, solid));
    println!(rt; "fresh {solid:x} -> {answer} :{}", Slots(slots))
}

fn refine(rt: &impl Print, slots: &mut [u64], leaf: u64) -> io::Result<()> {
    let answer = Answer(mesh::refine(slots, leaf));
    println!(rt; "refine {leaf:x} -> {answer} :{}", Slots(slots))
}

fn coarsen(rt: &impl Print, slots: &mut [u64], cell: u64) -> io::Result<()> {
    let answer = Answer(mesh::coarsen(slots, cell));
    println!(rt; "coarsen {cell:x} -> {answer} :{}", Slots(slots))
}

fn across(rt: &impl Print, slots: &[u64], leaf: u64, direction: u64) -> io::Result<()> {
    match mesh::across(slots, leaf, direction) {
        Ok(met) => println!(rt; "across {leaf:x} {direction:x} -> 0 {}", Beside(met)),
        Err(refusal) => {
            let number = refusal.number();
            println!(rt; "across {leaf:x} {direction:x} -> {number:x}")
        }
    }
}

fn sides(rt: &impl Print, slots: &[u64], leaf: u64) -> io::Result<()> {
    for direction in 0..3 {
        across(rt, slots, leaf, direction)?;
    }
    Ok(())
}

fn run(rt: &impl Print, slots: &[u64], cell: u64) -> io::Result<()> {
    let (number, count) = match mesh::count(slots, cell) {
        Ok(count) => (0, count),
        Err(refusal) => (refusal.number(), 0),
    };
    let leaves = Slots(mesh::run(slots, cell));
    println!(rt; "run {cell:x} -> {number:x} {count:x} :{leaves}")
}

fn sound(rt: &impl Print, slots: &[u64]) -> io::Result<()> {
    println!(rt;
        "sound{} -> {}",
        Slots(slots),
        u64::from(mesh::sound(slots))
    )
}

// Making a mesh over slots that hold something else.
fn making(rt: &impl Print) -> io::Result<()> {
    let mut four = [7; 9];
    fresh(rt, &mut four, 0)?;
    fresh(rt, &mut four, 4)?;
    fresh(rt, &mut four, 257)?;
    fresh(rt, &mut four, 3)?;
    fresh(rt, &mut four, 1)?;
    fresh(rt, &mut four, 2)?;
    let mut three = [7; 3];
    fresh(rt, &mut three, 0)?;
    fresh(rt, &mut three, 1)?;
    let mut twenty = [7; 22];
    fresh(rt, &mut twenty, 3)?;
    let mut less = [7; 19];
    fresh(rt, &mut less, 3)?;
    let mut none = [0; 0];
    fresh(rt, &mut none, 1)?;
    sound(rt, &none)
}

// The tetrahedron with its first face refined, and every side of every leaf.
fn listing(rt: &impl Print) -> io::Result<()> {
    let mut m = [7; 9];
    fresh(rt, &mut m, 1)?;
    refine(rt, &mut m, 0x4000_0000_0000_0000)?;
    sound(rt, &m)?;
    sides(rt, &m, 0x4000_0000_0000_0001)?;
    sides(rt, &m, 0x4080_0000_0000_0001)?;
    sides(rt, &m, 0x4100_0000_0000_0001)?;
    sides(rt, &m, 0x4180_0000_0000_0001)?;
    sides(rt, &m, 0x4200_0000_0000_0000)?;
    sides(rt, &m, 0x4400_0000_0000_0000)?;
    sides(rt, &m, 0x4600_0000_0000_0000)
}

// The mesh of the listing in 9 slots and in 10: refines that are blocked or have no room, and a coarsen.
fn cases_9_to_11(rt: &impl Print) -> io::Result<()> {
    let mut m = [0; 9];
    fresh(rt, &mut m, 1)?;
    refine(rt, &mut m, 0x4000_0000_0000_0000)?;
    refine(rt, &mut m, 0x4000_0000_0000_0001)?;
    refine(rt, &mut m, 0x4080_0000_0000_0001)?;
    refine(rt, &mut m, 0x4180_0000_0000_0001)?;
    refine(rt, &mut m, 0x4100_0000_0000_0001)?;
    coarsen(rt, &mut m, 0x4000_0000_0000_0000)?;
    let mut ten = [0; 10];
    fresh(rt, &mut ten, 1)?;
    refine(rt, &mut ten, 0x4000_0000_0000_0000)?;
    refine(rt, &mut ten, 0x4100_0000_0000_0001)?;
    coarsen(rt, &mut ten, 0x4000_0000_0000_0000)?;
    refine(rt, &mut ten, 0x4000_0000_0000_0001)?;
    coarsen(rt, &mut ten, 0x4100_0000_0000_0001)?;
    refine(rt, &mut ten, 0x4200_0000_0000_0000)
}

// Coarsens with a smaller leaf in the way, and with room for more.
fn case_12(rt: &impl Print) -> io::Result<()> {
    let mut m = [0; 26];
    fresh(rt, &mut m, 1)?;
    refine(rt, &mut m, 0x4600_0000_0000_0000)?;
    refine(rt, &mut m, 0x4400_0000_0000_0000)?;
    refine(rt, &mut m, 0x4000_0000_0000_0000)?;
    refine(rt, &mut m, 0x4200_0000_0000_0000)?;
    refine(rt, &mut m, 0x4000_0000_0000_0001)?;
    coarsen(rt, &mut m, 0x4200_0000_0000_0000)?;
    coarsen(rt, &mut m, 0x4400_0000_0000_0000)?;
    refine(rt, &mut m, 0x4600_0000_0000_0001)?;
    sides(rt, &m, 0x4000_0000_0000_0002)?;
    sides(rt, &m, 0x4600_0000_0000_0002)?;
    coarsen(rt, &mut m, 0x4000_0000_0000_0001)?;
    coarsen(rt, &mut m, 0x4600_0000_0000_0001)?;
    coarsen(rt, &mut m, 0x4600_0000_0000_0000)
}

// Coarsens of the first face: a smaller leaf beside its first child alone, beside its fourth alone, and its fourth divided.
fn one_child_blocked(rt: &impl Print) -> io::Result<()> {
    let mut m = [0; 19];
    fresh(rt, &mut m, 1)?;
    refine(rt, &mut m, 0x4000_0000_0000_0000)?;
    refine(rt, &mut m, 0x4200_0000_0000_0000)?;
    refine(rt, &mut m, 0x4400_0000_0000_0000)?;
    refine(rt, &mut m, 0x4600_0000_0000_0000)?;
    refine(rt, &mut m, 0x4280_0000_0000_0001)?;
    coarsen(rt, &mut m, 0x4000_0000_0000_0000)?;
    coarsen(rt, &mut m, 0x4280_0000_0000_0001)?;
    refine(rt, &mut m, 0x4200_0000_0000_0001)?;
    coarsen(rt, &mut m, 0x4000_0000_0000_0000)?;
    coarsen(rt, &mut m, 0x4200_0000_0000_0001)?;
    refine(rt, &mut m, 0x4180_0000_0000_0001)?;
    coarsen(rt, &mut m, 0x4000_0000_0000_0000)
}

// Each call but fresh.
fn every(rt: &impl Print, slots: &mut [u64], cell: u64, direction: u64) -> io::Result<()> {
    refine(rt, slots, cell)?;
    coarsen(rt, slots, cell)?;
    run(rt, slots, cell)?;
    across(rt, slots, cell, direction)
}

// Codes at fault, directions, and cells that are no leaf here.
fn faults(rt: &impl Print) -> io::Result<()> {
    let mut m = [0; 7];
    fresh(rt, &mut m, 1)?;
    refine(rt, &mut m, 0x4000_0000_0000_0000)?;
    // no solid, whatever else
    every(rt, &mut m, 0x3e00_0000_0000_003b, 3)?;
    // no face 4
    every(rt, &mut m, 0x4800_0000_0000_003b, 3)?;
    // depth 27
    every(rt, &mut m, 0x4000_0000_0000_003b, 3)?;
    // a bit after the last digit
    every(rt, &mut m, 0x4000_0000_0000_0020, 3)?;
    // a cell that is divided: the direction goes before the leaf
    every(rt, &mut m, 0x4000_0000_0000_0000, 3)?;
    across(rt, &m, 0x4000_0000_0000_0000, 2)?;
    // cells inside a larger leaf
    every(rt, &mut m, 0x4200_0000_0000_0001, 0)?;
    every(rt, &mut m, 0x4780_0000_0000_0001, 1)?;
    // a leaf; it is blocked and there is no room either
    every(rt, &mut m, 0x4080_0000_0000_0001, 4)?;
    every(rt, &mut m, 0x4100_0000_0000_0001, 2)?;
    // a cell of another solid, and one of depth 26
    every(rt, &mut m, 0x8000_0000_0000_0000, 2)?;
    every(rt, &mut m, 0x4000_0000_0000_001a, 2)
}

// The runs under cells of a mesh of three depths.
fn runs(rt: &impl Print) -> io::Result<()> {
    let mut m = [0; 13];
    fresh(rt, &mut m, 1)?;
    refine(rt, &mut m, 0x4200_0000_0000_0000)?;
    refine(rt, &mut m, 0x4300_0000_0000_0001)?;
    run(rt, &m, 0x4000_0000_0000_0000)?;
    run(rt, &m, 0x4000_0000_0000_0001)?;
    run(rt, &m, 0x4200_0000_0000_0000)?;
    run(rt, &m, 0x4280_0000_0000_0001)?;
    run(rt, &m, 0x4300_0000_0000_0001)?;
    run(rt, &m, 0x4340_0000_0000_0002)?;
    run(rt, &m, 0x4360_0000_0000_0002)?;
    run(rt, &m, 0x4378_0000_0000_0003)?;
    run(rt, &m, 0x4380_0000_0000_0001)?;
    run(rt, &m, 0x4600_0000_0000_0000)?;
    run(rt, &m, 0xc000_0000_0000_0000)
}

// The mesh of the listing in 9 slots, with two slots written over.
fn damaged(rt: &impl Print, one: usize, x: u64, other: usize, y: u64) -> io::Result<()>
    requires one { one < 9 }
    requires other { other < 9 }
{
    let mut m = [0; 9];
    let _ = mesh::fresh(&mut m, 1);
    let _ = mesh::refine(&mut m, 0x4000_0000_0000_0000);
    m[one] = x;
    m[other] = y;
    sound(rt, &m)?;
    every(rt, &mut m, 0, 3)
}

fn damages(rt: &impl Print) -> io::Result<()> {
    // none
    damaged(rt, 7, 0, 8, 0)?;
    // leaves exchanged
    damaged(rt, 1, 0x4100_0000_0000_0001, 2, 0x4080_0000_0000_0001)?;
    damaged(rt, 4, 0x4400_0000_0000_0000, 5, 0x4200_0000_0000_0000)?;
    // a leaf twice in place of another, and once more at the end
    damaged(rt, 2, 0x4080_0000_0000_0001, 8, 0)?;
    damaged(rt, 7, 0x4600_0000_0000_0000, 8, 0)?;
    // the first leaf missing, the last, and one between
    damaged(rt, 0, 0, 8, 0)?;
    damaged(rt, 6, 0, 8, 0)?;
    damaged(rt, 3, 0, 8, 0)?;
    // a cell in place of its first child, and a child in place of its cell
    damaged(rt, 0, 0x4000_0000_0000_0000, 8, 0)?;
    damaged(rt, 6, 0x4600_0000_0000_0001, 8, 0)?;
    // a leaf of another solid at the end, and a first one of none
    damaged(rt, 6, 0x8600_0000_0000_0000, 8, 0)?;
    damaged(rt, 0, 1, 8, 0)?;
    // a face that the solid has not
    damaged(rt, 7, 0x4800_0000_0000_0000, 8, 0)?;
    // a number after the leaves, and one after a zero
    damaged(rt, 7, 7, 8, 0)?;
    damaged(rt, 7, 0, 8, 7)?;
    // a bit after the last digit, and depth 27
    damaged(rt, 1, 0x4080_0000_0000_0021, 8, 0)?;
    damaged(rt, 0, 0x4000_0000_0000_001b, 8, 0)
}

// Every face refined, and a child of the first face once more; then another face is joined unasked. Its children stand from
// a slot on.
fn joined(rt: &impl Print, child: u64, at: usize, face: u64) -> io::Result<()>
    requires { at < 16 }
{
    let mut m = [0; 19];
    let _ = mesh::fresh(&mut m, 1);
    let _ = mesh::refine(&mut m, 0x4000_0000_0000_0000);
    let _ = mesh::refine(&mut m, 0x4200_0000_0000_0000);
    let _ = mesh::refine(&mut m, 0x4400_0000_0000_0000);
    let _ = mesh::refine(&mut m, 0x4600_0000_0000_0000);
    let _ = mesh::refine(&mut m, child);
    sound(rt, &m)?;
    slots::join(&mut m, at, 19, face);
    sound(rt, &m)
}

// Two levels apart over one side, or not: the third child lies inside its face.
fn levels(rt: &impl Print) -> io::Result<()> {
    // over the right side of the first child, and over its left
    joined(rt, 0x4000_0000_0000_0001, 7, 0x4200_0000_0000_0000)?;
    joined(rt, 0x4000_0000_0000_0001, 15, 0x4600_0000_0000_0000)?;
    joined(rt, 0x4000_0000_0000_0001, 11, 0x4400_0000_0000_0000)?;
    // over the left side of the second, and over its vertical
    joined(rt, 0x4080_0000_0000_0001, 15, 0x4600_0000_0000_0000)?;
    joined(rt, 0x4080_0000_0000_0001, 11, 0x4400_0000_0000_0000)?;
    // over the vertical side of the fourth, and over its right
    joined(rt, 0x4180_0000_0000_0001, 11, 0x4400_0000_0000_0000)?;
    joined(rt, 0x4180_0000_0000_0001, 7, 0x4200_0000_0000_0000)?;
    joined(rt, 0x4100_0000_0000_0001, 7, 0x4200_0000_0000_0000)
}

// Whole faces that begin a quarter late.
fn shifted(rt: &impl Print) -> io::Result<()> {
    sound(
        rt,
        &[
            0x4000_0000_0000_0001,
            0x4080_0000_0000_0000,
            0x4280_0000_0000_0000,
            0x4480_0000_0000_0000,
            0x4680_0000_0000_0001,
            0x4700_0000_0000_0001,
            0x4780_0000_0000_0001,
        ],
    )
}

// Refines a leaf, and tells the one to refine next: the leaf in the way, or else the first leaf.
fn onward(slots: &mut [u64], leaf: u64) -> u64 {
    match mesh::refine(slots, leaf) {
        Err(Refusal::Blocked(larger)) => larger,
        _ => slots.first().copied().unwrap_or(0),
    }
}

fn descend(slots: &mut [u64], turns: usize) {
    let mut leaf = 0x4000_0000_0000_0000;
    for _ in 0..turns {
        leaf = onward(slots, leaf);
    }
}

// Down to depth 26 at a corner of the solid, and one turn more, which is refused.
fn deep(rt: &impl Print) -> io::Result<()> {
    let mut m = [0; 240];
    let _ = mesh::fresh(&mut m, 1);
    descend(&mut m, 127);
    run(rt, &m, 0x4000_0000_0000_001a)?;
    sides(rt, &m, 0x4000_0000_0000_001a)?;
    refine(rt, &mut m, 0x4000_0000_0000_001a)?;
    coarsen(rt, &mut m, 0x4000_0000_0000_001a)?;
    every(rt, &mut m, 0x4000_0000_0000_0019, 0)?;
    run(rt, &m, 0x4000_0000_0000_0000)
}

// Inner functions on some faces of a solid alone: every call on a mesh takes all of them.
fn some_faces(rt: &impl Print) -> io::Result<()> {
    let slots = [0xe200_0000_0000_0000];
    let tiles = Tiles::of(&slots, Faces::new(0x2_0000), Solid::Icosahedron);
    let count = tiles.map_or(0, |tiles| tiles.len());
    println!(rt; "tiles 3 20000 : e200000000000000 -> {count:x}")?;
    let mut m = [7; 6];
    leaves::fresh_into(&mut m, Solid::Tetrahedron, Faces::new(5));
    println!(rt; "faces 1 5 :{}", Slots(&m))
}

// What a call on many slots answers, of which only the first is shown.
fn answer_shown(
    rt: &impl Print,
    call: &str,
    change: Result<(), Refusal>,
    first: u64,
) -> io::Result<()> {
    println!(rt; "{call} -> {} : {first:x}", Answer(change))
}

// One slot too many.
fn long(rt: &impl Print) -> io::Result<()> {
    let mut m = [0; 8193];
    m[0] = 7;
    answer_shown(rt, "fresh 0", mesh::fresh(&mut m, 0), m[0])?;
    answer_shown(rt, "fresh 1", mesh::fresh(&mut m, 1), m[0])?;
    answer_shown(rt, "refine 0", mesh::refine(&mut m, 0), m[0])?;
    answer_shown(rt, "coarsen 0", mesh::coarsen(&mut m, 0), m[0])?;
    across(rt, &m, 0, 3)?;
    run(rt, &m, 0)
}

// As many slots as a mesh may have.
fn full(rt: &impl Print) -> io::Result<()> {
    let mut m = [7; 8192];
    answer_shown(rt, "fresh 1", mesh::fresh(&mut m, 1), m[0])?;
    answer_shown(
        rt,
        "refine 4000000000000000",
        mesh::refine(&mut m, 0x4000_0000_0000_0000),
        m[0],
    )?;
    sides(rt, &m, 0x4180_0000_0000_0001)?;
    run(rt, &m, 0x4000_0000_0000_0000)
}

fn main(rt: HostRuntime) -> io::Result<()> {
    making(&rt)?;
    listing(&rt)?;
    cases_9_to_11(&rt)?;
    case_12(&rt)?;
    one_child_blocked(&rt)?;
    faults(&rt)?;
    runs(&rt)?;
    damages(&rt)?;
    levels(&rt)?;
    shifted(&rt)?;
    some_faces(&rt)?;
    deep(&rt)?;
    long(&rt)?;
    full(&rt)
}
