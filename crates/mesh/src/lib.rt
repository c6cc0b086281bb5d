//! The calls on a mesh: a lent slice of 64-bit slots, at most 8,192, leaves first and then zeros. A call examines the slice
//! once and then goes on with inner functions, which rest on a sound mesh. No call has a `requires`: the
//! numbers are a caller's, and untested, and its promise speaks of any. A refusal writes nothing.

#![tactic(auto)]

ghost use Rattle.std.specs.Prelude.{Bool, List, ◌≡◌, ℕ, ◌<◌};
ghost use Rattle.refusals.specs.Refusals.{Single};
ghost use Rattle.refusals.specs.Answers.{reply, unit_reply, Tells};
ghost use Rattle.soundness.specs.Regions.{all_faces};
ghost use Rattle.soundness.specs.Leaves.{Leaf, leaves};
ghost use Rattle.soundness.specs.Soundness.{Sound, SoundIn};
ghost use Rattle.soundness.specs.Sides.{OneOrTwo};
ghost use Rattle.examine.specs.Examined.{whole_of};
ghost use Rattle.mesh.specs.Answers.{outcome, across_reply, bounds_reply};
ghost use Rattle.mesh.specs.Calls.{Freshened, Refined, Coarsened, AcrossOf, BoundsOf, RunOf, CountOf};
ghost use Rattle.mesh.specs.Series.{Reach};

use codes::Code;
use examine::{SLOTS, examine};
use refusals::Refusal;
use solids::{Side, Solid};
use soundness::Met;
use soundness::regions::Faces;

/// Whether the slice holds a sound mesh.
pub fn sound(slots: &[u64]) -> bool
    ensures { Tells result (SoundIn (whole_of slots.now) slots.now) }
{
    examine(slots).is_ok()
}

/// The faces of a solid in order, and zeros after them, whatever stood there.
pub fn fresh(slots: &mut [u64], solid: u64) -> Result<(), Refusal>
    ensures { Freshened solid (all_faces solid) slots.old (outcome (unit_reply result) slots.new) }
{
    if SLOTS < slots.len() {
        return Err(Refusal::Buffer);
    }
    let solid = Solid::try_from(solid)?;
    let faces = Faces::all(solid);
    if slots.len() < leaves::fresh_count(solid, faces) {
        return Err(Refusal::Room);
    }
    leaves::fresh_into(slots, solid, faces);
    Ok(())
}

/// A leaf becomes its four children, unless it is too deep, a larger leaf stands in the way, or there is no room.
pub fn refine(slots: &mut [u64], leaf: u64) -> Result<(), Refusal>
    ensures { Refined (whole_of slots.old) slots.old leaf (outcome (unit_reply result) slots.new) }
{
    let mesh = examine(slots)?;
    let leaf = Code::try_from(leaf)?;
    let at = leaves::leaf_at(mesh.codes(), leaf.bits()).ok_or(Refusal::NotLeaf)?;
    if 25 < leaf.depth() {
        return Err(Refusal::Deep);
    }
    if let Some(blocker) = sides::refine_blocker(&mesh, leaf) {
        return Err(Refusal::Blocked(blocker));
    }
    let count = mesh.len();
    if slots.len() - count < 3 {
        return Err(Refusal::Room);
    }
    leaves::split_leaf(slots, count, at, leaf);
    Ok(())
}

/// The four children of a cell become that one leaf, unless a smaller leaf stands in the way.
pub fn coarsen(slots: &mut [u64], cell: u64) -> Result<(), Refusal>
    ensures { Coarsened (whole_of slots.old) slots.old cell (outcome (unit_reply result) slots.new) }
{
    let mesh = examine(slots)?;
    let cell = Code::try_from(cell)?;
    if 25 < cell.depth() {
        return Err(Refusal::Deep);
    }
    let at = leaves::four_at(mesh.codes(), cell).ok_or(Refusal::NotFour)?;
    if let Some(blocker) = sides::coarsen_blocker(&mesh, cell) {
        return Err(Refusal::Blocked(blocker));
    }
    let count = mesh.len();
    leaves::join_leaves(slots, count, at, cell.bits());
    Ok(())
}

/// What lies across a side of a leaf.
pub fn across(slots: &[u64], leaf: u64, direction: u64) -> Result<Met, Refusal>
    ensures { AcrossOf (whole_of slots.now) slots.now leaf direction (across_reply result) }
{
    let mesh = examine(slots)?;
    let leaf = Code::try_from(leaf)?;
    let side = Side::try_from(direction)?;
    leaves::leaf_at(mesh.codes(), leaf.bits()).ok_or(Refusal::NotLeaf)?;
    Ok(sides::side_of(&mesh, leaf, side))
}

/// Where in the slice the run of leaves under a cell stands; the empty run stands at 0.
pub fn bounds(slots: &[u64], cell: u64) -> Result<leaves::Run, Refusal>
    ensures { BoundsOf (whole_of slots.now) slots.now cell (bounds_reply result) }
{
    let mesh = examine(slots)?;
    let cell = Code::try_from(cell)?;
    let run = leaves::run_of(mesh.codes(), cell);
    if run.start == run.end {
        return Ok(leaves::Run { start: 0, end: 0 });
    }
    Ok(run)
}

/// The part of the slice that holds the leaves under a cell; the empty part at the start when there are none or it is refused.
pub fn run(slots: &[u64], cell: u64) -> &[u64]
    ensures { RunOf (whole_of slots.now) slots.now cell result.now }
{
    match bounds(slots, cell) {
        Ok(run) => &slots[run.start..run.end],
        Err(_) => &slots[..0],
    }
}

/// How many leaves that part has.
pub fn count(slots: &[u64], cell: u64) -> Result<usize, Refusal>
    ensures { CountOf (whole_of slots.now) slots.now cell (reply result) }
{
    let run = bounds(slots, cell)?;
    Ok(run.end - run.start)
}

// Theorems. Each function has an empty body and stands for what it ensures, so that the gate asks for it by name.

/// For any slots and numbers each call has one answer, the slots after it included.
pub fn each_call_on_a_mesh_has_one_answer()
    ensures sound { (xs : List ℕ) → Single (λ (b : Bool). Tells b (SoundIn (whole_of xs) xs)) }
    ensures fresh { (S Q : ℕ) (xs : List ℕ) → Single (Freshened S Q xs) }
    ensures refine { (Q : ℕ) (xs : List ℕ) (c : ℕ) → Single (Refined Q xs c) }
    ensures coarsen { (Q : ℕ) (xs : List ℕ) (c : ℕ) → Single (Coarsened Q xs c) }
    ensures across { (Q : ℕ) (xs : List ℕ) (c s : ℕ) → Single (AcrossOf Q xs c s) }
    ensures bounds { (Q : ℕ) (xs : List ℕ) (c : ℕ) → Single (BoundsOf Q xs c) }
    ensures run { (Q : ℕ) (xs : List ℕ) (c : ℕ) → Single (RunOf Q xs c) }
    ensures count { (Q : ℕ) (xs : List ℕ) (c : ℕ) → Single (CountOf Q xs c) }
{}

/// Any series of calls, refused ones included, leaves a sound mesh of the solid and the faces it was made for; and on the whole
/// solid each side of each leaf then meets one leaf, equal or larger, or exactly two smaller.
pub fn any_series_of_calls_leaves_a_sound_mesh()
    ensures sound { (S Q : ℕ) (xs : List ℕ) → Reach S Q xs → Sound S Q xs }
    ensures one_or_two { (S : ℕ) (xs : List ℕ) → Reach S (all_faces S) xs → (a s : ℕ) → Leaf (leaves xs) a → s < 3 → OneOrTwo (leaves xs) a s }
{}
