//! The step over a side of a triangle, on codes, by two methods: by carries, on the whole path at once, and by digits.

#![tactic(auto)]

ghost use Rattle.std.specs.Prelude.{◌≡◌, ℕ, ◌*◌, ◌/◌, ◌%◌, ◌^◌, ◌<◌, true};
ghost use Rattle.refusals.specs.Refusals.{Single};
ghost use Rattle.refusals.specs.Answers.{done, reply};
ghost use Rattle.solids.specs.Triangles.{side_no, side_of};
ghost use Rattle.geometry.specs.Parts.{Part};
ghost use Rattle.codes.specs.Codes.{solid, face, path, depth, joined, IsCode, cell_of};
ghost use Rattle.codes.specs.Calls.{ParentOf};
ghost use Rattle.steps.specs.Stepped.{Stepped, step_code};
ghost use Rattle.steps.specs.Words.{Over};
ghost use Rattle.steps.specs.Edges.{back_no, StepLaws};

use codes::Code;
use geometry::Walked;
use refusals::Refusal;
use solids::Side;

// A code's path, left-aligned in a word.
fn word_of(code: Code) -> u64
    ensures word { result ≡ path code * 2 ^ 12 }
    ensures code { IsCode code }
{
    code.bits() >> 5 << 12
}

// The code with its path replaced by another: both stand left-aligned in words, and what differs between them is flipped.
#[tactic(auto, using(crate::proofs::Fields::put_path))]
fn with_path(code: Code, old: u64, new: u64) -> u64
    requires old { old ≡ path code * 2 ^ 12 }
    requires new { new % 2 ^ 12 ≡ 0 }
    ensures { result ≡ joined (solid code) (face code) (new / 2 ^ 12) (depth code) }
{
    code.bits() ^ ((old ^ new) >> 7)
}

// The code with another face and another path, which stands left-aligned in a word. No bit of the old face is kept.
#[tactic(auto, using(crate::proofs::Fields::put_face))]
fn with_face(code: Code, face: u64, new: u64) -> u64
    requires face { face < 32 }
    requires new { new % 2 ^ 12 ≡ 0 }
    ensures { result ≡ joined (solid code) face (new / 2 ^ 12) (depth code) }
{
    (code.bits() & 0xc000_0000_0000_001f) | (face << 57) | (new >> 7)
}

// The neighbour's code over a seam; `word` is what the walk left of the path.
fn over_seam(code: Code, side: Side, word: u64) -> Code
    requires { Over code side word true }
    ensures { result ≡ step_code (side_no side) code }
{
    let solid = code.solid();
    let face = code.face();
    let next = solid.next_face(side, face);
    let turned = carry::mirror(word_of(code));
    let path = if solid.is_mirrored(side, face) {
        turned
    } else {
        word
    };
    Code::new(with_face(code, next, path))
}

// The neighbour's code; `walked` has what the walk left of the path, left-aligned in a word.
fn neighbour(code: Code, side: Side, walked: Walked) -> Code
    requires { Over code side walked.path walked.crossed }
    ensures { result ≡ step_code (side_no side) code }
{
    if walked.crossed {
        return over_seam(code, side, walked.path);
    }
    Code::new(with_path(code, word_of(code), walked.path))
}

/// The neighbour's code, by carries.
pub fn step_of(code: Code, side: Side) -> Code
    ensures { result ≡ step_code (side_no side) code }
{
    neighbour(code, side, carry::carry(side, word_of(code), code.depth()))
}

/// The neighbour's code, by digits.
pub fn walk_of(code: Code, side: Side) -> Code
    ensures { result ≡ step_code (side_no side) code }
{
    let depth = code.depth();
    let unused = 52 - 2 * depth;
    let walked = walk::walk(side, code.path() >> unused, depth);
    let path = walked.path << unused << 12;
    neighbour(code, side, Walked { path, ..walked })
}

/// The step over a side, by carries. The numbers are a caller's, and untested: `Stepped` speaks of any.
#[tactic(auto, using(crate::proofs::Stepped::stepped))]
pub fn step(code: u64, direction: u64) -> Result<Code, Refusal>
    ensures { Stepped code direction (reply result) }
{
    Ok(step_of(Code::try_from(code)?, Side::try_from(direction)?))
}

/// The step over a side, by digits, of such numbers.
// One line, as `step` is: a function over both methods would be no plainer.
#[tactic(auto, using(crate::proofs::Stepped::stepped))]
pub fn walk(code: u64, direction: u64) -> Result<Code, Refusal>
    ensures { Stepped code direction (reply result) }
{
    Ok(walk_of(Code::try_from(code)?, Side::try_from(direction)?))
}

// Theorems. Each function has an empty body and stands for what it ensures, so that the gate asks for it by name.

/// For any input the step has one answer: the corner rule leaves nothing open.
pub fn the_step_has_one_answer()
    ensures { (x s : ℕ) → Single (Stepped x s) }
{}

/// Left undoes right, right undoes left, vertical undoes itself.
#[tactic(auto, using(crate::proofs::Laws::undo_stepped))]
pub fn a_step_back_undoes_a_step()
    ensures { (x s y : ℕ) → Stepped x s (done y) → Stepped y (back_no s) (done x) }
{}

/// Where a cell's side in one direction is part of its parent's side in that direction, the parent of the cell across is the
/// cell across from the parent.
pub fn the_parent_steps_along()
    ensures { (x s p y z : ℕ) → Part (side_of s) (cell_of x) → ParentOf x (done p) → Stepped x s (done y) → Stepped p s (done z) → ParentOf y (done z) }
{}

/// The laws of the step that a mesh rests on, for every solid.
#[tactic(auto, using(crate::proofs::Laws::step_laws))]
pub fn the_step_has_the_laws_of_a_mesh()
    ensures { (S : ℕ) → StepLaws S step_code }
{}
