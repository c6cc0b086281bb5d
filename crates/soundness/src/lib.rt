//! Soundness of a mesh as mathematics: what a sound mesh is, what changes do to it, what its sides meet. Of code there are the
//! types that hold such facts: a set of faces, a mesh that was found sound, what a side meets.

#![tactic(auto)]

ghost use Rattle.std.specs.Prelude.{List, ◌≡◌, ℕ, ◌+◌, ◌<◌, ◌≤◌, length};
ghost use Rattle.solids.specs.Solids.{Known};
ghost use Rattle.codes.specs.Codes.{depth};
ghost use Rattle.codes.specs.Places.{CodeOn, child_code};
ghost use Rattle.soundness.specs.Regions.{all_faces, FaceSet};
ghost use Rattle.soundness.specs.Leaves.{Leaf, leaves, pad};
ghost use Rattle.soundness.specs.Soundness.{Level, Mesh, Sound};
ghost use Rattle.soundness.specs.Changes.{fresh_leaves, refined, coarsened};
ghost use Rattle.soundness.specs.Sides.{MetIs, OneOrTwo, BlocksRefine, BlocksCoarsen, Some, larger_leaf, smaller_leaf};
ghost use Rattle.soundness.specs.declared.Met as met;

pub mod meshes;
pub mod regions;

/// What a side of a leaf meets: one larger leaf, one of equal size, two smaller ones (ascending), or, at the edge of a region,
/// none. Leaves are told by their numbers, as they stand in the slots.
#[derive(Clone, Copy, Debug, PartialEq, Eq)]
pub enum Met {
    Larger(u64),
    Equal(u64),
    Smaller(u64, u64),
    Open,
}

impl Met {
    /// The larger leaf, where the side meets one.
    pub fn larger(self) -> Option<u64>
        ensures { result ≡ larger_leaf self }
    {
        match self {
            Met::Larger(leaf) => Some(leaf),
            _ => None,
        }
    }

    /// The lesser of the two smaller leaves, where the side meets these.
    pub fn smaller(self) -> Option<u64>
        ensures { result ≡ smaller_leaf self }
    {
        match self {
            Met::Smaller(leaf, _) => Some(leaf),
            _ => None,
        }
    }
}

// Theorems. Each function has an empty body and stands for what it ensures, so that the gate asks for it by name.

/// The faces of a set in order, in at most 8,192 slots, are a sound mesh of those faces.
pub fn a_fresh_mesh_is_sound()
    ensures { (S Q n : ℕ) → Known S → FaceSet S Q → length (fresh_leaves S Q) ≤ n → n ≤ 8192 → Sound S Q (pad n (fresh_leaves S Q)) }
{}

/// Refining a leaf of depth below 26 keeps a mesh sound, where there is room for three more leaves and no side of the leaf
/// meets a larger one. Where one does, leaves that share a stretch of a side would be two levels apart.
pub fn refining_keeps_a_mesh_sound()
    ensures sound { (S Q a : ℕ) (xs : List ℕ) → Sound S Q xs → Leaf (leaves xs) a → depth a < 26 →
        (Some (BlocksRefine (leaves xs) a) → ⊥) → length (leaves xs) + 3 ≤ length xs → Sound S Q (pad (length xs) (refined a (leaves xs))) }
    ensures blocked { (a : ℕ) (L : List ℕ) → Leaf L a → depth a < 26 → Some (BlocksRefine L a) → Level (refined a L) → ⊥ }
{}

/// Coarsening a cell whose four children are leaves keeps a mesh sound, where no side of a child meets two smaller leaves. Where
/// one does, leaves that share a stretch of a side would be two levels apart.
pub fn coarsening_keeps_a_mesh_sound()
    ensures sound { (S Q c : ℕ) (xs : List ℕ) → Sound S Q xs → CodeOn S c → depth c < 26 →
        ((q : ℕ) → q < 4 → Leaf (leaves xs) (child_code c q)) → (Some (BlocksCoarsen (leaves xs) c) → ⊥) →
        Sound S Q (pad (length xs) (coarsened c (leaves xs))) }
    ensures blocked { (S Q c : ℕ) (L : List ℕ) → Mesh S Q L → CodeOn S c → depth c < 26 →
        ((q : ℕ) → q < 4 → Leaf L (child_code c q)) → Some (BlocksCoarsen L c) → Level (coarsened c L) → ⊥ }
{}

/// On a mesh of the whole solid each side of each leaf meets one leaf, equal or larger, or exactly two smaller; and what a side
/// meets has one answer.
pub fn each_side_meets_one_leaf_or_two_smaller()
    ensures one_or_two { (S : ℕ) (L : List ℕ) → Mesh S (all_faces S) L → (a s : ℕ) → Leaf L a → s < 3 → OneOrTwo L a s }
    ensures one_answer { (L : List ℕ) (a s : ℕ) (m n : met.Met) → MetIs L a s m → MetIs L a s n → m ≡ n }
{}
