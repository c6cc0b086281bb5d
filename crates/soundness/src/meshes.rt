//! Meshes that were found sound.

ghost use Rattle.std.specs.Prelude.{◌≡◌, ◌<◌, length, IsTrue};
ghost use Rattle.soundness.specs.Meshes.{Meshed, MeshOf};

use crate::regions::Faces;
use std::marker::Model;

/// The leaves of a sound mesh, in order, and the faces that they cover.
// Nothing prints or compares it, and a struct with a lifetime and a model is never `Copy`.
#[derive(Clone, Drop)]
pub struct Mesh<'a> {
    codes: &'a [u64],
    faces: Faces,
}

impl<'a> Model for Mesh<'a> {
    ghost use Rattle.soundness.specs.Meshes.{Meshed, MeshOf};

    ghost Value = { Meshed };

    ghost view = { λ m. record { faces = m.faces; leaves = m.codes.now } };

    ghost invariant = { λ m. MeshOf m.faces m.codes.now };
}

impl<'a> Mesh<'a> {
    /// The mesh of these leaves, whoever has found that they are one.
    pub fn new(codes: &'a [u64], faces: Faces) -> Mesh<'a>
        requires { MeshOf faces codes.now }
        ensures faces { result.faces ≡ faces }
        ensures leaves { result.leaves ≡ codes.now }
    {
        Mesh { codes, faces }
    }

    /// How many leaves there are: at least one.
    pub fn len(&self) -> usize
        ensures len { result ≡ length self.now.leaves }
        ensures some { 0 < result }
    {
        self.codes.len()
    }

    /// The faces that the leaves cover.
    pub fn faces(&self) -> Faces
        ensures faces { result ≡ self.now.faces }
        ensures mesh { MeshOf self.now.faces self.now.leaves }
    {
        self.faces
    }

    /// The leaves.
    pub fn codes(&self) -> &'a [u64]
        ensures codes { result.now ≡ self.now.leaves }
        ensures mesh { MeshOf self.now.faces self.now.leaves }
    {
        self.codes
    }
}
