//! What a side of a leaf of a mesh meets, and the least leaf in the way of a change. That a code is a leaf ties it to the mesh, and
//! neither type can hold it: so it is asked.

#![tactic(auto)]

ghost use Rattle.std.specs.Prelude.{Bool, ◌≡◌, ℕ, ◌<◌, min, Option, MatchOption};
ghost use Rattle.solids.specs.Triangles.{side_no};
ghost use Rattle.codes.specs.Codes.{IsCode, depth};
ghost use Rattle.codes.specs.Places.{child_code};
ghost use Rattle.soundness.specs.Leaves.{Leaf};
ghost use Rattle.soundness.specs.Sides.{MetIs, BlocksRefine, BlocksCoarsen};
ghost use Rattle.soundness.specs.declared.Met.{Met as Sides·Met};
ghost use Rattle.sides.specs.Sides.{AllIn, smaller_of, InTheWay, candidate_of, Blocker};

use codes::Code;
use geometry::Digit;
use solids::Side;
use soundness::Met;
use soundness::meshes::Mesh;

// The two smaller leaves across a side: the children, on the side back, of the cell across. That it has children is asked:
// `Code::child` says why.
fn smaller(across: Code, side: Side) -> Met
    requires code { IsCode across }
    requires depth { depth across < 26 }
    ensures { result ≡ smaller_of across (side_no side) }
{
    let (first, second) = match side {
        Side::Left => (Digit::Tip, Digit::Right),
        Side::Right => (Digit::Tip, Digit::Left),
        Side::Vertical => (Digit::Left, Digit::Right),
    };
    Met::Smaller(across.child(first).bits(), across.child(second).bits())
}

/// What a side of a leaf meets.
pub fn side_of(mesh: &Mesh<'_>, leaf: Code, side: Side) -> Met
    requires { Leaf mesh.now.leaves leaf }
    ensures { MetIs mesh.now.leaves leaf (side_no side) result }
{
    let across = steps::step_of(leaf, side);
    if !mesh.faces().has_place(across.place()) {
        return Met::Open;
    }
    let codes = mesh.codes();
    if let Some(&next) = codes.get(slots::below(codes, across.bits())) {
        let next = Code::new(next);
        if next == across {
            return Met::Equal(across.bits());
        }
        if next.place() == across.place() {
            return smaller(across, side);
        }
    }
    Met::Larger(across.parent().bits())
}

// The lesser of a leaf and the least before it, if there is one.
fn lower(least: Option<u64>, leaf: u64) -> u64
    ensures { MatchOption least (result ≡ leaf) (λ before. result ≡ min before leaf) }
{
    least.map_or(leaf, |before| before.min(leaf))
}

// The least leaf in the way of a change of some leaves, by all their sides; a rule says which leaf of what a side meets is. No
// leaf is less than the first.
fn least_blocker<F: Fn(Met) -> Option<u64>>(
    mesh: &Mesh<'_>,
    leaves: &[Code],
    blocks: F,
) -> Option<u64>
    requires callable { F.IsAlwaysCallable blocks }
    requires leaves { AllIn mesh.now.leaves leaves.now }
    ensures { (small : Bool) → ((m : Sides·Met) (r : Option ℕ) → F.post blocks m r → r ≡ candidate_of small m) → Blocker (InTheWay mesh.now.leaves small leaves.now) result }
{
    let first = mesh.codes()[0];
    'search: {
        let mut least = None;
        for &leaf in leaves {
            for side in Side::ALL {
                if let Some(blocker) = blocks(side_of(mesh, leaf, side)) {
                    if blocker == first {
                        break 'search Some(blocker);
                    }
                    least = Some(lower(least, blocker));
                }
            }
        }
        least
    }
}

/// The least leaf in the way of refining a leaf.
pub fn refine_blocker(mesh: &Mesh<'_>, leaf: Code) -> Option<u64>
    requires { Leaf mesh.now.leaves leaf }
    ensures { Blocker (BlocksRefine mesh.now.leaves leaf) result }
{
    least_blocker(mesh, &[leaf], |met| met.larger())
}

/// The least leaf in the way of coarsening to a cell whose four children are leaves.
pub fn coarsen_blocker(mesh: &Mesh<'_>, cell: Code) -> Option<u64>
    requires { (q : ℕ) → q < 4 → Leaf mesh.now.leaves (child_code cell q) }
    ensures { Blocker (BlocksCoarsen mesh.now.leaves cell) result }
{
    // How deep the cell is follows from what is told with these.
    let (_codes, _number) = (mesh.codes(), cell.bits());
    // Codes, where `leaves` has their numbers. Made there from the digits by `map`, the goal stayed open.
    let children = [
        cell.child(Digit::Tip),
        cell.child(Digit::Left),
        cell.child(Digit::Centre),
        cell.child(Digit::Right),
    ];
    least_blocker(mesh, &children, |met| met.smaller())
}
