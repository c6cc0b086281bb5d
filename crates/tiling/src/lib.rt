//! The linear pass: whether the first slots of a slice tile the faces of a set.

#![tactic(auto)]

ghost use Rattle.std.specs.Prelude.{◌≡◌, ◌%◌, ◌^◌, ◌<◌, ◌≤◌, length};
ghost use Rattle.solids.specs.Solids.{solid_no};
ghost use Rattle.refusals.specs.Answers.{Tells};
ghost use Rattle.codes.specs.Codes.{size};
ghost use Rattle.tiling.specs.Tiling.{Skipped, Begins, Tiled, TilesTried};

use solids::Solid;
use soundness::regions::Faces;
use std::marker::Model;

/// The size of a cell, in places.
// Of a depth by its number, which may be that of no code: `begins` reads it off a slot.
pub fn size_of(depth: u64) -> u64
    requires { depth ≤ 26 }
    ensures { result ≡ size depth }
{
    1 << (52 - 2 * depth)
}

// The first place of the set from `place` on; `last` if there is none below it, which the pass then compares.
fn next_place(faces: Faces, last: u64, place: u64) -> u64
    requires order { place ≤ last }
    requires last { last < 2 ^ 60 }
    requires whole { last % 2 ^ 52 ≡ 0 }
    ensures { Skipped faces last place result }
{
    // Asked before the search, since most leaves end within a face of the set.
    if faces.has_place(place) {
        return place;
    }
    match (place >> 52..last >> 52).find(|&face| faces.has_place(face << 52)) {
        Some(face) => place.max(face << 52),
        None => last,
    }
}

// Whether the code is that of a cell that begins at the place `want`. It is read by its bits: it is none of a cell yet.
fn begins(code: u64, want: u64) -> bool
    ensures { Tells result (Begins code want) }
{
    if code >> 5 != want {
        return false;
    }
    let depth = code % 32;
    if 26 < depth {
        return false;
    }
    want & (size_of(depth) - 1) == 0
}

/// Leaves that tile the faces of a set, of some solid, and that set.
// A type of its own beside `Mesh`, with another invariant: one type over both would need a parameter that only proofs read. Nothing
// prints or compares it, and a struct with a lifetime and a model is never `Copy`.
#[derive(Clone, Drop)]
pub struct Tiles<'a> {
    codes: &'a [u64],
    faces: Faces,
}

impl<'a> Model for Tiles<'a> {
    ghost use Rattle.soundness.specs.Meshes.{Meshed};
    ghost use Rattle.tiling.specs.Tiling.{Tiled};

    ghost Value = { Meshed };

    ghost view = { λ t. record { faces = t.faces; leaves = t.codes.now } };

    ghost invariant = { λ t. Tiled t.faces t.codes.now };
}

impl<'a> Tiles<'a> {
    /// The tiles of these leaves, whoever has found that they are such.
    pub fn new(codes: &'a [u64], faces: Faces) -> Tiles<'a>
        requires { Tiled faces codes.now }
        ensures faces { result.faces ≡ faces }
        ensures leaves { result.leaves ≡ codes.now }
    {
        Tiles { codes, faces }
    }

    /// The first slots that tile the faces of a set, at least one and as many as do; none if no number of them does.
    pub fn of(slots: &'a [u64], faces: Faces, solid: Solid) -> Option<Tiles<'a>>
        ensures { TilesTried (solid_no solid) faces slots.now result }
    {
        let first = solid.number() << 57;
        let last = first + (solid.faces() << 52);
        let mut want = next_place(faces, last, first);
        let mut end = 0;
        for (at, &code) in slots.iter().enumerate() {
            if want == last {
                break;
            }
            if !begins(code, want) {
                return None;
            }
            want = next_place(faces, last, want + size_of(code % 32));
            end = at + 1;
        }
        if want < last || end == 0 {
            return None;
        }
        Some(Tiles {
            codes: &slots[..end],
            faces,
        })
    }

    /// How many leaves there are.
    pub fn len(&self) -> usize
        ensures { result ≡ length self.now.leaves }
    {
        self.codes.len()
    }

    /// The faces that the leaves tile.
    pub fn faces(&self) -> Faces
        ensures faces { result ≡ self.now.faces }
        ensures tiled { Tiled self.now.faces self.now.leaves }
    {
        self.faces
    }

    /// The leaves.
    pub fn codes(&self) -> &'a [u64]
        ensures codes { result.now ≡ self.now.leaves }
        ensures tiled { Tiled self.now.faces self.now.leaves }
    {
        self.codes
    }
}
