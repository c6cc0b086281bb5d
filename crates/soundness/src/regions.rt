//! Sets of faces.

ghost use Rattle.std.specs.Prelude.{◌≡◌, ◌/◌, ◌%◌, ◌^◌, ◌<◌};
ghost use Rattle.solids.specs.Solids.{solid_no};
ghost use Rattle.refusals.specs.Answers.{Tells};
ghost use Rattle.soundness.specs.Regions.{InFaces, all_faces};

use solids::Solid;
use std::marker::Model;

/// A set of faces of a solid, by a number with one bit for each face.
#[derive(Clone, Copy, Debug, PartialEq, Eq, Hash)]
pub struct Faces {
    bits: u64,
}

impl Model for Faces {
    ghost use Rattle.std.specs.Prelude.{ℕ};

    ghost Value = { ℕ };

    ghost view = { λ q. q.bits };

    ghost inverse = { λ n. record { bits = n } };
}

impl Faces {
    /// The set of the faces whose bits are set.
    pub fn new(bits: u64) -> Faces
        ensures { result ≡ bits }
    {
        Faces { bits }
    }

    /// All faces of a solid.
    #[tactic(auto, using(crate::proofs::Fresh::all_of))]
    pub fn all(solid: Solid) -> Faces
        ensures { result ≡ all_faces (solid_no solid) }
    {
        Faces::new((1 << solid.faces()) - 1)
    }

    /// Whether a face is in the set.
    pub fn contains(self, face: u64) -> bool
        requires { face < 64 }
        ensures { Tells result (self / 2 ^ face % 2 ≡ 1) }
    {
        (self.bits >> face) % 2 == 1
    }

    /// Whether the face of a place is in the set.
    #[tactic(auto, unfolding(crate::specs::Regions::InFaces))]
    pub fn has_place(self, place: u64) -> bool
        ensures { Tells result (InFaces self place) }
    {
        self.contains((place >> 52) % 32)
    }
}
