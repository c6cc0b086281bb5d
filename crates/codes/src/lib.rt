//! Codes of triangles: 2 bits solid, 5 bits face, 52 bits path, 5 bits depth.

#![tactic(auto)]

ghost use Rattle.std.specs.Prelude.{◌≡◌, ℕ, ◌+◌, ◌-◌, ◌*◌, ◌^◌, ◌≤◌, ◌<◌, Result};
ghost use Rattle.solids.specs.Triangles.{Corner};
ghost use Rattle.solids.specs.Solids.{solid_no, solid_of, faces};
ghost use Rattle.refusals.specs.Refusals.{Single};
ghost use Rattle.refusals.specs.Answers.{done, refused, reply, unit_reply};
ghost use Rattle.refusals.specs.declared.Refusal.{Refusal as Refusals·Refusal};
ghost use Rattle.geometry.specs.Corners.{Digit as Corners·Digit, child_corners};
ghost use Rattle.geometry.specs.Paths.{digit_of, digit_no};
ghost use Rattle.geometry.specs.Cells.{Cell, WellFormed, depth_of, corner, parent, child};
ghost use Rattle.codes.specs.Codes.{solid, face, path, depth, joined, faults, IsCode, cell_of, code_of, Within, Descends};
ghost use Rattle.codes.specs.Places.{place, past, code_at, CodeOn, child_code, parent_code};
ghost use Rattle.codes.specs.Calls.{Checked, CodeTried, Packed, unpacked, Unpacked, fields, ParentOf, ChildOf, SomeChild};

use geometry::Digit;
use refusals::Refusal;
use solids::Solid;
use std::marker::Model;

const PATH: u64 = 0x000f_ffff_ffff_ffff;

/// The four fields of a number, be it a code or not: `Packed` speaks of any four. The 52 bits of the path have its first digit on top.
#[derive(Clone, Copy, Debug, PartialEq, Eq)]
pub struct Fields {
    pub solid: u64,
    pub face: u64,
    pub path: u64,
    pub depth: u64,
}

impl Fields {
    /// The fields of a number.
    pub fn of(bits: u64) -> Fields
        ensures solid { result.solid ≡ solid bits }
        ensures face { result.face ≡ face bits }
        ensures path { result.path ≡ path bits }
        ensures depth { result.depth ≡ depth bits }
    {
        Fields {
            solid: bits >> 62,
            face: bits >> 57 & 31,
            path: bits >> 5 & PATH,
            depth: bits & 31,
        }
    }

    /// Whether they are those of a cell; else their first fault.
    pub fn check(self) -> Result<(), Refusal>
        ensures { faults refused self.solid self.face self.path self.depth (λ r. r ≡ done 0) (unit_reply result) }
    {
        if self.solid < 1 {
            return Err(Refusal::Solid);
        }
        if 3 < self.solid {
            return Err(Refusal::Solid);
        }
        if solids::faces_of(self.solid) <= self.face {
            return Err(Refusal::Face);
        }
        if 26 < self.depth {
            return Err(Refusal::Depth);
        }
        if PATH < self.path {
            return Err(Refusal::Tail);
        }
        if self.path & PATH >> (2 * self.depth) != 0 {
            return Err(Refusal::Tail);
        }
        Ok(())
    }

    /// The fields side by side in one number.
    pub fn join(self) -> u64
        requires solid { self.solid < 4 }
        requires face { self.face < 32 }
        requires path { self.path < 2 ^ 52 }
        requires depth { self.depth < 32 }
        ensures { result ≡ joined self.solid self.face self.path self.depth }
    {
        self.solid << 62 | self.face << 57 | self.path << 5 | self.depth
    }
}

/// A well-formed code: a cell of a solid.
#[derive(Clone, Copy, Debug, PartialEq, Eq, PartialOrd, Ord, Hash)]
pub struct Code {
    bits: u64,
}

impl Model for Code {
    ghost use Rattle.std.specs.Prelude.{ℕ};
    ghost use Rattle.codes.specs.Codes.{IsCode};

    ghost Value = { ℕ };

    ghost view = { λ c. c.bits };

    ghost invariant = { λ c. IsCode c.bits };

    ghost inverse = { λ n. record { bits = n } };
}

impl TryFrom<u64> for Code {
    type Error = Refusal;

    ghost try_from_gives = { CodeTried };

    fn try_from(bits: u64) -> Result<Code, Refusal> {
        Fields::of(bits).check()?;
        Ok(Code { bits })
    }
}

impl Code {
    /// The code of a number that is known to be one.
    pub fn new(bits: u64) -> Code
        requires { IsCode bits }
        ensures { result ≡ bits }
    {
        Code { bits }
    }

    pub fn bits(self) -> u64
        ensures bits { result ≡ self }
        ensures code { IsCode self }
    {
        self.bits
    }

    /// The solid of its number, which is one of three.
    pub fn solid(self) -> Solid
        ensures { solid_no result ≡ solid self }
    {
        match Fields::of(self.bits).solid {
            1 => Solid::Tetrahedron,
            2 => Solid::Octahedron,
            _ => Solid::Icosahedron,
        }
    }

    pub fn face(self) -> u64
        ensures face { result ≡ face self }
        ensures of_the_solid { face self < faces (solid_of (solid self)) }
    {
        Fields::of(self.bits).face
    }

    /// The 52 bits of the path, its first digit on top.
    pub fn path(self) -> u64
        ensures { result ≡ path self }
    {
        Fields::of(self.bits).path
    }

    pub fn depth(self) -> u64
        ensures depth { result ≡ depth self }
        ensures most { depth self ≤ 26 }
    {
        Fields::of(self.bits).depth
    }

    /// Solid, face and path in one number.
    pub fn place(self) -> u64
        ensures { result ≡ place self }
    {
        self.bits >> 5
    }

    /// Its last digit and its depth shifted out, the parent's depth put in.
    pub fn parent(self) -> Code
        requires { 0 < depth self }
        ensures { result ≡ code_of (parent (cell_of self)) }
    {
        let depth = self.depth();
        let cut = 59 - 2 * depth;
        Code {
            bits: self.bits >> cut << cut | depth - 1,
        }
    }

    /// The digit put in its place, the depth one more.
    // That it has children is asked, here and of those who hand the cell on: a type of codes that have would be one test more at each
    // of the places where they are made, and no test less.
    pub fn child(self, digit: Digit) -> Code
        requires { depth self < 26 }
        ensures { result ≡ code_of (child (cell_of self) digit) }
    {
        Code {
            bits: self.bits + (digit.number() << (55 - 2 * self.depth())) + 1,
        }
    }
}

/// The code of a solid, a face, a path of 52 bits with its first digit on top, and a depth. As in the calls below, the numbers are a
/// caller's, and untested: `Packed`, `Unpacked`, `ParentOf` and `ChildOf` speak of any.
pub fn pack(solid: u64, face: u64, path: u64, depth: u64) -> Result<Code, Refusal>
    ensures { Packed solid face path depth (reply result) }
{
    let fields = Fields {
        solid,
        face,
        path,
        depth,
    };
    fields.check()?;
    Ok(Code {
        bits: fields.join(),
    })
}

/// The four fields of a code.
pub fn unpack(code: u64) -> Result<Fields, Refusal>
    ensures { Unpacked code (fields result) }
{
    let code = Code::try_from(code)?;
    Ok(Fields::of(code.bits))
}

/// The parent of a code.
pub fn parent(code: u64) -> Result<Code, Refusal>
    ensures { ParentOf code (reply result) }
{
    let code = Code::try_from(code)?;
    if code.depth() == 0 {
        return Err(Refusal::Root);
    }
    Ok(code.parent())
}

/// The child of a code, of a digit by its number.
pub fn child(code: u64, digit: u64) -> Result<Code, Refusal>
    ensures { ChildOf code digit (reply result) }
{
    let code = Code::try_from(code)?;
    let digit = Digit::try_from(digit)?;
    if 25 < code.depth() {
        return Err(Refusal::Deep);
    }
    Ok(code.child(digit))
}

// Theorems. Each function has an empty body and stands for what it ensures, so that the gate asks for it by name.

/// Well-formed codes and well-formed cells of depth at most 26 are one and the same.
pub fn codes_and_cells_are_one_and_the_same()
    ensures code { (c : Cell) → WellFormed c → depth_of c ≤ 26 → IsCode (code_of c) }
    ensures cell_again { (c : Cell) → WellFormed c → depth_of c ≤ 26 → cell_of (code_of c) ≡ c }
    ensures cell { (x : ℕ) → IsCode x → WellFormed (cell_of x) }
    ensures same_depth { (x : ℕ) → depth_of (cell_of x) ≡ depth x }
    ensures code_again { (x : ℕ) → IsCode x → code_of (cell_of x) ≡ x }
{}

/// For any input each call has one answer.
pub fn each_call_on_codes_has_one_answer()
    ensures checked { (x : ℕ) → Single (Checked x) }
    ensures packed { (s f p d : ℕ) → Single (Packed s f p d) }
    ensures unpacked { (x : ℕ) → Single (Unpacked x) }
    ensures parent { (x : ℕ) → Single (ParentOf x) }
    ensures child { (x q : ℕ) → Single (ChildOf x q) }
{}

/// What a number is refused by as a code is what the check of it says.
pub fn a_number_tried_as_a_code_is_checked()
    ensures { (x : ℕ) (r : Result ℕ Refusals·Refusal) → CodeTried x r → Checked x (reply r).number }
{}

/// What packs into a code unpacks from it, and what unpacks from a code packs into it.
pub fn packing_and_unpacking_undo_each_other()
    ensures unpacked { (s f p d x : ℕ) → Packed s f p d (done x) → Unpacked x (unpacked s f p d) }
    ensures packed { (x s f p d : ℕ) → Unpacked x (unpacked s f p d) → Packed s f p d (done x) }
{}

/// The parent of a child is the cell, and a cell is a child of its parent.
pub fn parent_and_child_undo_each_other()
    ensures parent_of_child { (x q y : ℕ) → ChildOf x q (done y) → ParentOf y (done x) }
    ensures child_of_parent { (x y : ℕ) → ParentOf x (done y) → SomeChild y x }
{}

/// The corners of every child are those of the table.
pub fn a_child_has_the_corners_of_the_table()
    ensures { (x q y : ℕ) → ChildOf x q (done y) → (p : Corner) → corner (cell_of y) p ≡ child_corners (digit_of q) (corner (cell_of x)) p }
{}

/// Numeric order of codes puts an ancestor before its descendants.
pub fn an_ancestor_comes_before_its_descendants()
    ensures { (x y : ℕ) → IsCode x → IsCode y → Descends x y → x < y }
{}

/// Read by its place, a well-formed code is the same code, and its children and its parent are those of its cell.
pub fn places_tell_codes_children_and_parents()
    ensures on_its_solid { (x : ℕ) → IsCode x → CodeOn (solid x) x }
    ensures on_no_other { (S x : ℕ) → CodeOn S x → IsCode x × (solid x ≡ S) }
    ensures child { (x : ℕ) (q : Corners·Digit) → IsCode x → depth x < 26 → code_of (child (cell_of x) q) ≡ child_code x (digit_no q) }
    ensures parent { (x : ℕ) → IsCode x → 0 < depth x → code_of (parent (cell_of x)) ≡ parent_code x }
{}

/// The cells of depth 26 inside a cell are those at the places of its interval.
pub fn a_cell_is_an_interval_of_places()
    ensures within { (x g : ℕ) → IsCode x → place x ≤ g → g < past x → Within x (code_at g 26) }
    ensures nowhere_else { (x g : ℕ) → IsCode x → IsCode (code_at g 26) → Within x (code_at g 26) → (place x ≤ g) × (g < past x) }
{}
