//! The exported calls on chosen numbers: well-formed ones, ones at the edges, and ones at fault in one or two ways. A line is
//! the call, what it was given and what it answered, in hexadecimal.

#![tactic(auto)]

use std::io;

fn unpack(rt: &impl Print, code: u64) -> io::Result<()> {
    let mut fields = [7; 4];
    let number = urdinhosa::urdinhosa_unpack(code, &mut fields);
    let [solid, face, path, depth] = fields;
    println!(rt; "unpack {code:x} -> {number:x} {solid:x} {face:x} {path:x} {depth:x}")
}

fn parent(rt: &impl Print, code: u64) -> io::Result<()> {
    let answer = urdinhosa::urdinhosa_parent(code);
    println!(rt; "parent {code:x} -> {answer:x}")
}

fn child(rt: &impl Print, code: u64, digit: u64) -> io::Result<()> {
    let answer = urdinhosa::urdinhosa_child(code, digit);
    println!(rt; "child {code:x} {digit:x} -> {answer:x}")
}

fn step(rt: &impl Print, code: u64, direction: u64) -> io::Result<()> {
    let answer = urdinhosa::urdinhosa_step(code, direction);
    println!(rt; "step {code:x} {direction:x} -> {answer:x}")
}

fn walk(rt: &impl Print, code: u64, direction: u64) -> io::Result<()> {
    let answer = urdinhosa::urdinhosa_walk(code, direction);
    println!(rt; "walk {code:x} {direction:x} -> {answer:x}")
}

fn pack(rt: &impl Print, solid: u64, face: u64, path: u64, depth: u64) -> io::Result<()> {
    let answer = urdinhosa::urdinhosa_pack(solid, face, path, depth);
    println!(rt; "pack {solid:x} {face:x} {path:x} {depth:x} -> {answer:x}")
}

fn locate(
    rt: &impl Print,
    solid: u64,
    face: u64,
    t: u64,
    l: u64,
    r: u64,
    depth: u64,
) -> io::Result<()> {
    let answer = urdinhosa::urdinhosa_locate(solid, face, t, l, r, depth);
    println!(rt; "locate {solid:x} {face:x} {t:x} {l:x} {r:x} {depth:x} -> {answer:x}")
}

fn about(rt: &impl Print, code: u64) -> io::Result<()> {
    unpack(rt, code)?;
    parent(rt, code)?;
    child(rt, code, 0)?;
    child(rt, code, 3)?;
    child(rt, code, 4)
}

fn on_codes(rt: &impl Print) -> io::Result<()> {
    // solid 0
    about(rt, 0x0000_0000_0000_0000)?;
    // solid 0 and face 31: the solid wins
    about(rt, 0x3e00_0000_0000_0000)?;
    // the first face of the tetrahedron
    about(rt, 0x4000_0000_0000_0000)?;
    // its last face
    about(rt, 0x4600_0000_0000_0000)?;
    // no face 4
    about(rt, 0x4800_0000_0000_0000)?;
    // octahedron, face 7
    about(rt, 0x8e00_0000_0000_0000)?;
    // octahedron, no face 8
    about(rt, 0x9000_0000_0000_0000)?;
    // icosahedron, face 19
    about(rt, 0xe600_0000_0000_0000)?;
    // icosahedron, no face 20, and depth 27: the face wins
    about(rt, 0xe800_0000_0000_001b)?;
    // depth 26
    about(rt, 0x4000_0000_0000_001a)?;
    // depth 26, every digit 11
    about(rt, 0x41ff_ffff_ffff_fffa)?;
    // depth 27
    about(rt, 0x4000_0000_0000_001b)?;
    // depth 27 and a bit set
    about(rt, 0x4000_0000_0000_003b)?;
    // a bit after the last digit
    about(rt, 0x4000_0000_0000_0020)?;
    // digit 01
    about(rt, 0x4080_0000_0000_0001)?;
    // icosahedron, face 7, six digits
    about(rt, 0xce96_0000_0000_0006)
}

fn across(rt: &impl Print, code: u64) -> io::Result<()> {
    for direction in 0..4 {
        step(rt, code, direction)?;
    }
    for direction in 0..4 {
        walk(rt, code, direction)?;
    }
    Ok(())
}

fn stepping(rt: &impl Print) -> io::Result<()> {
    // a bad code: its own number, whatever the direction
    across(rt, 0x4000_0000_0000_0020)?;
    // tetrahedron face 0, path 01, and face 3, path 11
    across(rt, 0x4080_0000_0000_0001)?;
    across(rt, 0x4780_0000_0000_0001)?;
    // the four children of tetrahedron face 1
    across(rt, 0x4200_0000_0000_0001)?;
    across(rt, 0x4280_0000_0000_0001)?;
    across(rt, 0x4300_0000_0000_0001)?;
    across(rt, 0x4380_0000_0000_0001)?;
    // octahedron faces 0 and 3, and face 1, path 0011
    across(rt, 0x8000_0000_0000_0000)?;
    across(rt, 0x8600_0000_0000_0000)?;
    across(rt, 0x8260_0000_0000_0002)?;
    // icosahedron faces 5 and 0, path 0011110011
    across(rt, 0xca79_8000_0000_0005)?;
    across(rt, 0xc079_8000_0000_0005)?;
    // icosahedron face 7, six digits, and face 19, 26 digits 11
    across(rt, 0xce96_0000_0000_0006)?;
    across(rt, 0xe7ff_ffff_ffff_fffa)
}

fn packing(rt: &impl Print) -> io::Result<()> {
    pack(rt, 257, 0, 0, 0)?;
    pack(rt, 0, 0, 0, 0)?;
    pack(rt, 4, 0, 0, 0)?;
    pack(rt, 1, 32, 0, 0)?;
    pack(rt, 1, 3, 0x0010_0000_0000_0000, 27)?;
    pack(rt, 1, 3, 0x0010_0000_0000_0000, 26)?;
    pack(rt, 1, 4, 0x0010_0000_0000_0000, 27)?;
    pack(rt, 1, 3, 0x000f_ffff_ffff_ffff, 26)?;
    pack(rt, 1, 3, 0x0001_0000_0000_0000, 1)?;
    pack(rt, 1, 3, 0x0004_0000_0000_0000, 1)?;
    pack(rt, 2, 7, 0, 0)?;
    pack(rt, 3, 19, 0x0008_0000_0000_0000, 1)
}

fn locating(rt: &impl Print) -> io::Result<()> {
    locate(rt, 1, 0, 0x200_0000, 0x200_0000, 0, 1)?;
    locate(rt, 1, 0, 0, 0x200_0000, 0x200_0000, 1)?;
    locate(rt, 1, 0, 0x1ff_ffff, 1, 0x200_0000, 1)?;
    locate(rt, 1, 0, 0x1ff_ffff, 0, 0x200_0001, 1)?;
    locate(rt, 3, 7, 0, 0x400_0000, 0, 26)?;
    locate(rt, 3, 7, 0x155_5555, 0x155_5555, 0x155_5556, 26)?;
    locate(rt, 1, 0, 0x400_0000, 0, 0, 0)?;
    locate(rt, 1, 0, 0xffff_ffff_ffff_ffff, 1, 0x400_0000, 1)?;
    locate(rt, 1, 0, 0xffff_ffff, 1, 0x400_0000, 1)?;
    locate(rt, 1, 0, 0x400_0000, 0, 1, 1)?;
    locate(rt, 0, 0, 0, 0, 0, 27)?;
    locate(rt, 1, 4, 0, 0, 0, 27)?;
    locate(rt, 1, 3, 0, 0, 0, 27)?;
    locate(rt, 1, 3, 0, 0, 0, 26)
}

fn sound(rt: &impl Print, slots: &[u64]) -> io::Result<()> {
    println!(rt; "sound -> {}", u64::from(urdinhosa::urdinhosa_sound(slots)))
}

fn fresh(rt: &impl Print, slots: &mut [u64], solid: u64) -> io::Result<()> {
    let answer = urdinhosa::urdinhosa_fresh(slots, solid);
    println!(rt; "fresh {solid:x} -> {answer:x}")
}

fn refine(rt: &impl Print, slots: &mut [u64], leaf: u64) -> io::Result<()> {
    let mut blocker = 7;
    let number = urdinhosa::urdinhosa_refine(slots, leaf, &mut blocker);
    println!(rt; "refine {leaf:x} -> {number:x} {blocker:x}")
}

fn coarsen(rt: &impl Print, slots: &mut [u64], cell: u64) -> io::Result<()> {
    let mut blocker = 7;
    let number = urdinhosa::urdinhosa_coarsen(slots, cell, &mut blocker);
    println!(rt; "coarsen {cell:x} -> {number:x} {blocker:x}")
}

fn met(rt: &impl Print, slots: &[u64], leaf: u64, direction: u64) -> io::Result<()> {
    let mut level = 7;
    let mut first = 7;
    let mut second = 7;
    let number = urdinhosa::urdinhosa_across(
        slots,
        leaf,
        direction,
        &mut level,
        &mut first,
        &mut second,
    );
    println!(rt; "across {leaf:x} {direction:x} -> {number:x} {level} {first:x} {second:x}")
}

fn run(rt: &impl Print, slots: &[u64], cell: u64) -> io::Result<()> {
    let mut start = 7;
    let mut count = 7;
    let number = urdinhosa::urdinhosa_run(slots, cell, &mut start, &mut count);
    println!(rt; "run {cell:x} -> {number:x} {start:x} {count:x}")
}

// The tetrahedron with its face 0 refined, and what comes of it in ten slots.
fn on_a_mesh(rt: &impl Print) -> io::Result<()> {
    let mut slots = [7u64; 10];
    sound(rt, &slots)?;
    fresh(rt, &mut slots, 0)?;
    refine(rt, &mut slots, 0x4000_0000_0000_0000)?;
    met(rt, &slots, 0x4000_0000_0000_0000, 0)?;
    run(rt, &slots, 0x4000_0000_0000_0000)?;
    fresh(rt, &mut slots, 1)?;
    refine(rt, &mut slots, 0x4000_0000_0000_0000)?;
    refine(rt, &mut slots, 0x4000_0000_0000_0001)?;
    sound(rt, &slots)?;
    met(rt, &slots, 0x4000_0000_0000_0001, 0)?;
    met(rt, &slots, 0x4200_0000_0000_0000, 0)?;
    met(rt, &slots, 0x4200_0000_0000_0000, 1)?;
    met(rt, &slots, 0x4200_0000_0000_0000, 3)?;
    met(rt, &slots, 0x4200_0000_0000_0001, 2)?;
    run(rt, &slots, 0x4000_0000_0000_0000)?;
    run(rt, &slots, 0x4600_0000_0000_0000)?;
    run(rt, &slots, 0x4600_0000_0000_0001)?;
    refine(rt, &mut slots, 0x4100_0000_0000_0001)?;
    coarsen(rt, &mut slots, 0x4000_0000_0000_0000)?;
    refine(rt, &mut slots, 0x4600_0000_0000_0000)?;
    coarsen(rt, &mut slots, 0x4100_0000_0000_0001)?;
    coarsen(rt, &mut slots, 0x4000_0000_0000_0000)
}

fn main(rt: HostRuntime) -> io::Result<()> {
    on_codes(&rt)?;
    stepping(&rt)?;
    packing(&rt)?;
    locating(&rt)?;
    on_a_mesh(&rt)
}
