//! The C interface, whole: each function but `methods_agree` stands in include/urdinhosa.h and promises what the call under it promises. The crate
//! urdinhosa_c exports them to C under these names. Numbers, slices and out-parameters are what C can hand over.

#![tactic(auto)]

ghost use Rattle.std.specs.Prelude.{true, ◌≡◌, ℕ, ◌^◌, ◌≤◌, List};
ghost use Rattle.refusals.specs.Refusals.{Single};
ghost use Rattle.refusals.specs.Answers.{told, unit_reply, Tells};
ghost use Rattle.codes.specs.Codes.{IsCode};
ghost use Rattle.codes.specs.Calls.{Packed, ParentOf, ChildOf};
ghost use Rattle.points.specs.Located.{Located};
ghost use Rattle.steps.specs.Stepped.{Stepped};
ghost use Rattle.soundness.specs.Regions.{all_faces};
ghost use Rattle.soundness.specs.Soundness.{SoundIn};
ghost use Rattle.examine.specs.Examined.{whole_of};
ghost use Rattle.mesh.specs.Answers.{outcome, crossing};
ghost use Rattle.mesh.specs.Calls.{Freshened, Refined, Coarsened, AcrossOf, BoundsOf};
ghost use Rattle.urdinhosa.specs.Exports.{one_number, Gives, Writes, told_side, told_part};

use codes::Code;
use refusals::Refusal;
use soundness::Met;

// For C, in one number: the code, or else the refusal's number.
fn one_number(answer: Result<Code, Refusal>) -> u64
    ensures { result ≡ one_number answer }
{
    match answer {
        Ok(code) => code.bits(),
        Err(refusal) => refusal.number(),
    }
}

// For C, the number of a change's answer; the leaf in the way, or 0, is written.
fn number_and_blocker(answer: Result<(), Refusal>, blocker: &mut u64) -> u64
    ensures { told result blocker.new ≡ unit_reply answer }
{
    match answer {
        Ok(()) => {
            *blocker = 0;
            0
        }
        Err(refusal) => {
            *blocker = refusal.value();
            refusal.number()
        }
    }
}

// For C, what lies across a side in parts: the level difference, and the leaf's code or both.
fn in_parts(met: Met) -> (i64, u64, u64)
    ensures { told_side 0 result.0 result.1 result.2 ≡ crossing met }
{
    match met {
        Met::Larger(leaf) => (-1, leaf, 0),
        Met::Equal(leaf) => (0, leaf, 0),
        Met::Smaller(low, high) => (1, low, high),
        Met::Open => (0, 0, 0),
    }
}

pub fn urdinhosa_pack(solid: u64, face: u64, path: u64, depth: u64) -> u64
    ensures { Gives (Packed solid face path depth) result }
{
    one_number(codes::pack(solid, face, path, depth))
}

pub fn urdinhosa_unpack(code: u64, fields: &mut [u64; 4]) -> u64
    ensures { Writes code result fields.new }
{
    match codes::unpack(code) {
        Ok(found) => {
            *fields = [found.solid, found.face, found.path, found.depth];
            0
        }
        Err(refusal) => {
            *fields = [0; 4];
            refusal.number()
        }
    }
}

pub fn urdinhosa_parent(code: u64) -> u64
    ensures { Gives (ParentOf code) result }
{
    one_number(codes::parent(code))
}

pub fn urdinhosa_child(code: u64, digit: u64) -> u64
    ensures { Gives (ChildOf code digit) result }
{
    one_number(codes::child(code, digit))
}

pub fn urdinhosa_locate(solid: u64, face: u64, t: u64, l: u64, r: u64, depth: u64) -> u64
    ensures { Gives (Located solid face t l r depth) result }
{
    one_number(points::locate(solid, face, t, l, r, depth))
}

/// The step by carries.
pub fn urdinhosa_step(code: u64, direction: u64) -> u64
    ensures { Gives (Stepped code direction) result }
{
    one_number(steps::step(code, direction))
}

/// The step by digits.
pub fn urdinhosa_walk(code: u64, direction: u64) -> u64
    ensures { Gives (Stepped code direction) result }
{
    one_number(steps::walk(code, direction))
}

/// Whether the two methods agree on a code and a direction: they do on all, whatever the numbers. C does not call it.
pub fn methods_agree(code: u64, direction: u64) -> bool
    ensures { result ≡ true }
{
    urdinhosa_step(code, direction) == urdinhosa_walk(code, direction)
}

pub fn urdinhosa_sound(slots: &[u64]) -> bool
    ensures { Tells result (SoundIn (whole_of slots.now) slots.now) }
{
    mesh::sound(slots)
}

pub fn urdinhosa_fresh(slots: &mut [u64], solid: u64) -> u64
    ensures { Freshened solid (all_faces solid) slots.old (outcome (told result 0) slots.new) }
{
    match mesh::fresh(slots, solid) {
        Ok(()) => 0,
        Err(refusal) => refusal.number(),
    }
}

pub fn urdinhosa_refine(slots: &mut [u64], leaf: u64, blocker: &mut u64) -> u64
    ensures { Refined (whole_of slots.old) slots.old leaf (outcome (told result blocker.new) slots.new) }
{
    number_and_blocker(mesh::refine(slots, leaf), blocker)
}

pub fn urdinhosa_coarsen(slots: &mut [u64], cell: u64, blocker: &mut u64) -> u64
    ensures { Coarsened (whole_of slots.old) slots.old cell (outcome (told result blocker.new) slots.new) }
{
    number_and_blocker(mesh::coarsen(slots, cell), blocker)
}

pub fn urdinhosa_across(
    slots: &[u64],
    leaf: u64,
    direction: u64,
    level: &mut i64,
    first: &mut u64,
    second: &mut u64,
) -> u64
    ensures { AcrossOf (whole_of slots.now) slots.now leaf direction (told_side result level.new first.new second.new) }
{
    match mesh::across(slots, leaf, direction) {
        Ok(met) => {
            (*level, *first, *second) = in_parts(met);
            0
        }
        Err(refusal) => {
            (*level, *first, *second) = (0, 0, 0);
            refusal.number()
        }
    }
}

pub fn urdinhosa_run(slots: &[u64], cell: u64, start: &mut usize, count: &mut usize) -> u64
    ensures { BoundsOf (whole_of slots.now) slots.now cell (told_part result start.new count.new) }
{
    match mesh::bounds(slots, cell) {
        Ok(run) => {
            *start = run.start;
            *count = run.end - run.start;
            0
        }
        Err(refusal) => {
            *start = 0;
            *count = 0;
            refusal.number()
        }
    }
}

// Theorems. Each function has an empty body and stands for what it ensures, so that the gate asks for it by name.

/// For any input each export has one answer.
pub fn each_export_has_one_answer()
    ensures packed { (s f p d : ℕ) → Single (Gives (Packed s f p d)) }
    ensures parent { (x : ℕ) → Single (Gives (ParentOf x)) }
    ensures child { (x q : ℕ) → Single (Gives (ChildOf x q)) }
    ensures located { (s f t l r d : ℕ) → Single (Gives (Located s f t l r d)) }
    ensures stepped { (x s : ℕ) → Single (Gives (Stepped x s)) }
    ensures written { (x m n : ℕ) (a b : List ℕ) → Writes x m a → Writes x n b → (m ≡ n) × (a ≡ b) }
{}

/// A code is never taken for a refusal's number.
pub fn a_code_is_no_number_of_a_refusal()
    ensures { (x : ℕ) → IsCode x → 2 ^ 62 ≤ x }
{}
