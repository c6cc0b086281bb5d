//! What C links: each function of include/urdinhosa.h, as the crate urdinhosa has it, with its clauses. They stand twice, since programs
//! stand on a library, and a static library exports its own functions only.

#![tactic(auto)]

ghost use Rattle.refusals.specs.Answers.{told, Tells};
ghost use Rattle.codes.specs.Calls.{Packed, ParentOf, ChildOf};
ghost use Rattle.points.specs.Located.{Located};
ghost use Rattle.steps.specs.Stepped.{Stepped};
ghost use Rattle.soundness.specs.Regions.{all_faces};
ghost use Rattle.soundness.specs.Soundness.{SoundIn};
ghost use Rattle.examine.specs.Examined.{whole_of};
ghost use Rattle.mesh.specs.Answers.{outcome};
ghost use Rattle.mesh.specs.Calls.{Freshened, Refined, Coarsened, AcrossOf, BoundsOf};
ghost use Rattle.urdinhosa.specs.Exports.{Gives, Writes, told_side, told_part};

#[unsafe(no_mangle)]
pub extern "C" fn urdinhosa_pack(solid: u64, face: u64, path: u64, depth: u64) -> u64
    ensures { Gives (Packed solid face path depth) result }
{
    urdinhosa::urdinhosa_pack(solid, face, path, depth)
}

#[unsafe(no_mangle)]
pub extern "C" fn urdinhosa_unpack(code: u64, fields: &mut [u64; 4]) -> u64
    ensures { Writes code result fields.new }
{
    urdinhosa::urdinhosa_unpack(code, fields)
}

#[unsafe(no_mangle)]
pub extern "C" fn urdinhosa_parent(code: u64) -> u64
    ensures { Gives (ParentOf code) result }
{
    urdinhosa::urdinhosa_parent(code)
}

#[unsafe(no_mangle)]
pub extern "C" fn urdinhosa_child(code: u64, digit: u64) -> u64
    ensures { Gives (ChildOf code digit) result }
{
    urdinhosa::urdinhosa_child(code, digit)
}

#[unsafe(no_mangle)]
pub extern "C" fn urdinhosa_locate(solid: u64, face: u64, t: u64, l: u64, r: u64, depth: u64) -> u64
    ensures { Gives (Located solid face t l r depth) result }
{
    urdinhosa::urdinhosa_locate(solid, face, t, l, r, depth)
}

/// The step by carries.
#[unsafe(no_mangle)]
pub extern "C" fn urdinhosa_step(code: u64, direction: u64) -> u64
    ensures { Gives (Stepped code direction) result }
{
    urdinhosa::urdinhosa_step(code, direction)
}

/// The step by digits.
#[unsafe(no_mangle)]
pub extern "C" fn urdinhosa_walk(code: u64, direction: u64) -> u64
    ensures { Gives (Stepped code direction) result }
{
    urdinhosa::urdinhosa_walk(code, direction)
}

#[unsafe(no_mangle)]
pub extern "C" fn urdinhosa_sound(slots: &[u64]) -> bool
    ensures { Tells result (SoundIn (whole_of slots.now) slots.now) }
{
    urdinhosa::urdinhosa_sound(slots)
}

#[unsafe(no_mangle)]
pub extern "C" fn urdinhosa_fresh(slots: &mut [u64], solid: u64) -> u64
    ensures { Freshened solid (all_faces solid) slots.old (outcome (told result 0) slots.new) }
{
    urdinhosa::urdinhosa_fresh(slots, solid)
}

#[unsafe(no_mangle)]
pub extern "C" fn urdinhosa_refine(slots: &mut [u64], leaf: u64, blocker: &mut u64) -> u64
    ensures { Refined (whole_of slots.old) slots.old leaf (outcome (told result blocker.new) slots.new) }
{
    urdinhosa::urdinhosa_refine(slots, leaf, blocker)
}

#[unsafe(no_mangle)]
pub extern "C" fn urdinhosa_coarsen(slots: &mut [u64], cell: u64, blocker: &mut u64) -> u64
    ensures { Coarsened (whole_of slots.old) slots.old cell (outcome (told result blocker.new) slots.new) }
{
    urdinhosa::urdinhosa_coarsen(slots, cell, blocker)
}

#[unsafe(no_mangle)]
pub extern "C" fn urdinhosa_across(
    slots: &[u64],
    leaf: u64,
    direction: u64,
    level: &mut i64,
    first: &mut u64,
    second: &mut u64,
) -> u64
    ensures { AcrossOf (whole_of slots.now) slots.now leaf direction (told_side result level.new first.new second.new) }
{
    urdinhosa::urdinhosa_across(slots, leaf, direction, level, first, second)
}

#[unsafe(no_mangle)]
pub extern "C" fn urdinhosa_run(
    slots: &[u64],
    cell: u64,
    start: &mut usize,
    count: &mut usize,
) -> u64
    ensures { BoundsOf (whole_of slots.now) slots.now cell (told_part result start.new count.new) }
{
    urdinhosa::urdinhosa_run(slots, cell, start, count)
}
