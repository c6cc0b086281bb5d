//! The worked examples that Lee and Samet's paper prints in its sections 3 to 5, run by both methods. A line has the section,
//! the direction, the path given, the path that the paper prints, the path by carries, the path by digits, whether the three
//! are one, and the faces.
//!
//! A path stands as the paper prints it, two bits a digit. Its digits are ours, 00 tip, 01 left, 10 centre, 11 right, and so are
//! its directions and its numbers of the icosahedron's faces. The examples run on that solid: over the faces that the paper
//! names; where it names none, on face 7, or from face 5 to 10 when the path runs off the top.
//!
//! Not run: the example of 5.1, which is of squares, and the masks of Tables VI and VII, which are no cells.

#![tactic(auto)]

ghost use Rattle.std.specs.Prelude.{◌≤◌};

use solids::Side;
use std::fmt::Write;
use std::{fmt, io};

// The cell on a face of the icosahedron whose path has these digits, the last one lowest.
fn cell(face: u64, depth: u64, digits: u64) -> u64
    requires { depth ≤ 26 }
{
    urdinhosa::urdinhosa_pack(3, face, digits << (52 - 2 * depth), depth)
}

// The solid, the face, the path and the depth of a cell.
fn fields_of(code: u64) -> [u64; 4] {
    let mut fields = [0; 4];
    urdinhosa::urdinhosa_unpack(code, &mut fields);
    fields
}

// A cell, shown by the digits of its path, or by a dash when it has none.
#[derive(Clone, Copy)]
struct Path(u64);

impl fmt::Display for Path {
    fn fmt<W: fmt::Write>(&self, f: &mut fmt::Formatter<W>) -> fmt::Result {
        let [_, _, path, depth] = fields_of(self.0);
        if depth == 0 {
            return f.write_str("-");
        }
        // the first digit is the top two of the 64 bits
        let mut rest = path << 12;
        for _ in 0..depth {
            write!(f, "{:02b}", rest >> 62)?;
            rest <<= 2;
        }
        Ok(())
    }
}

// An example: where it stands, what is asked, and the cell that is printed for an answer.
#[derive(Clone, Copy)]
struct Example {
    section: &'static str,
    side: Side,
    given: u64,
    printed: u64,
}

impl Example {
    fn new(section: &'static str, side: Side, given: u64, printed: u64) -> Self {
        Example {
            section,
            side,
            given,
            printed,
        }
    }

    fn side_name(self) -> &'static str {
        match self.side {
            Side::Left => "left",
            Side::Right => "right",
            Side::Vertical => "vertical",
        }
    }

    // Writes the line, with the cells that the two methods answer; the words say what is asked for, if not the neighbour.
    fn line(self, rt: &impl Print, words: &str, carries: u64, digits: u64) -> io::Result<()> {
        let side = self.side_name();
        let Example {
            section,
            given,
            printed,
            ..
        } = self;
        let verdict = if carries == printed && digits == printed {
            "agree"
        } else {
            "differ"
        };
        print!(rt;
            "{section} {side} {}{words} printed {}",
            Path(given),
            Path(printed)
        )?;
        print!(rt;
            " carries {} digits {} {verdict}",
            Path(carries),
            Path(digits)
        )?;
        let [_, from, _, _] = fields_of(given);
        let [_, to, _, _] = fields_of(printed);
        println!(rt; " (face {from} to {to})")
    }

    // The cell across, by carries and by digits.
    fn across(self) -> (u64, u64) {
        (
            urdinhosa::urdinhosa_step(self.given, self.side.number()),
            urdinhosa::urdinhosa_walk(self.given, self.side.number()),
        )
    }

    // A cell's neighbour.
    fn neighbour(self, rt: &impl Print) -> io::Result<()> {
        let (carries, digits) = self.across();
        self.line(rt, "", carries, digits)
    }

    // The nearest common ancestor of a cell and its neighbour.
    fn ancestor(self, rt: &impl Print) -> io::Result<()> {
        let (carries, digits) = self.across();
        let carries = common(self.given, carries);
        let digits = common(self.given, digits);
        self.line(rt, " ancestor", carries, digits)
    }

    // What the second of four digits becomes.
    fn second(self, rt: &impl Print) -> io::Result<()> {
        let (carries, digits) = self.across();
        let carries = second_digit(carries);
        let digits = second_digit(digits);
        self.line(rt, " second digit", carries, digits)
    }
}

// The nearest cell that holds both of two cells of one depth: they climb until they meet.
fn common(one: u64, other: u64) -> u64 {
    let mut a = one;
    let mut b = other;
    for _ in 0..26 {
        if a == b {
            return a;
        }
        a = urdinhosa::urdinhosa_parent(a);
        b = urdinhosa::urdinhosa_parent(b);
    }
    a
}

// The second digit of a cell's path, as a cell of depth 1.
fn second_digit(code: u64) -> u64 {
    let [_, face, path, _] = fields_of(code);
    cell(face, 1, (path >> 48) & 3)
}

// A step to the right from a cell of four digits, of which the second is asked for.
fn digit(rt: &impl Print, digits: u64, printed: u64) -> io::Result<()> {
    Example::new("5.2", Side::Right, cell(7, 4, digits), cell(7, 1, printed)).second(rt)
}

// EXCODE: the ancestor found by step one, the child set by step two, the rest of the path and the whole path by step three.
fn section_3(rt: &impl Print) -> io::Result<()> {
    Example::new(
        "3.1",
        Side::Right,
        cell(7, 6, 0b010010110000),
        cell(7, 2, 0b0100),
    )
    .ancestor(rt)?;
    Example::new("3.2", Side::Left, cell(7, 1, 0b10), cell(7, 1, 0b01)).neighbour(rt)?;
    Example::new(
        "3.2",
        Side::Right,
        cell(7, 3, 0b010010),
        cell(7, 3, 0b010011),
    )
    .neighbour(rt)?;
    Example::new(
        "3.3",
        Side::Right,
        cell(5, 3, 0b110000),
        cell(10, 3, 0b000101),
    )
    .neighbour(rt)?;
    Example::new(
        "3.3",
        Side::Right,
        cell(7, 6, 0b010010110000),
        cell(7, 6, 0b010011000101),
    )
    .neighbour(rt)
}

// EXCODE2: the face alone, and the whole.
fn section_4(rt: &impl Print) -> io::Result<()> {
    Example::new("4", Side::Left, cell(2, 0, 0), cell(1, 0, 0)).neighbour(rt)?;
    Example::new(
        "4",
        Side::Left,
        cell(2, 6, 0b010001010001),
        cell(1, 6, 0b110011110011),
    )
    .neighbour(rt)
}

// The columns of Table VIII, without a carry and then with one, each read as the paper reads two of them, in ??0110?? and in
// ??101111. The digits left open are 01 in front and 11 behind.
fn table_8(rt: &impl Print) -> io::Result<()> {
    digit(rt, 0b01001011, 0b00)?;
    digit(rt, 0b01011011, 0b01)?;
    digit(rt, 0b01101011, 0b10)?;
    digit(rt, 0b01111011, 0b11)?;
    digit(rt, 0b01001111, 0b01)?;
    digit(rt, 0b01011111, 0b10)?;
    digit(rt, 0b01101111, 0b11)?;
    digit(rt, 0b01111111, 0b00)
}

// RCODE, LCODE and VCODE, drawn in Figure 5, and the code with an overflow bit.
fn section_5(rt: &impl Print) -> io::Result<()> {
    Example::new(
        "5.2",
        Side::Right,
        cell(7, 4, 0b00011100),
        cell(7, 4, 0b00100001),
    )
    .neighbour(rt)?;
    Example::new(
        "5.3",
        Side::Left,
        cell(7, 4, 0b01110001),
        cell(7, 4, 0b01101100),
    )
    .neighbour(rt)?;
    Example::new(
        "5.4",
        Side::Vertical,
        cell(7, 4, 0b10100111),
        cell(7, 4, 0b10000111),
    )
    .neighbour(rt)?;
    Example::new(
        "5.5",
        Side::Right,
        cell(5, 5, 0b0011110011),
        cell(10, 5, 0b0100000100),
    )
    .neighbour(rt)
}

fn main(rt: HostRuntime) -> io::Result<()> {
    section_3(&rt)?;
    section_4(&rt)?;
    table_8(&rt)?;
    section_5(&rt)
}
