//! The examination of a lent slice, with which every call on a mesh begins: whether it holds a sound mesh. One linear pass over
//! the leaves, the zeros after them, and the level test.

#![tactic(auto)]

ghost use Rattle.std.specs.Prelude.{◌≡◌, ◌≤◌, length};
ghost use Rattle.solids.specs.Solids.{solid_no};
ghost use Rattle.soundness.specs.Regions.{FaceSet};
ghost use Rattle.examine.specs.Examined.{first_solid, whole_of, Examined};

use codes::Fields;
use refusals::Refusal;
use solids::Solid;
use soundness::meshes::Mesh;
use soundness::regions::Faces;
use tiling::Tiles;

/// The most slots that a mesh may have.
pub const SLOTS: usize = 8192;

// The mesh of a set of faces of the first slot's solid.
fn examine_faces(slots: &[u64], solid: Solid, faces: Faces) -> Result<Mesh<'_>, Refusal>
    requires short { length slots.now ≤ 8192 }
    requires solid { solid_no solid ≡ first_solid slots.now }
    requires faces { FaceSet (solid_no solid) faces }
    ensures { Examined faces slots.now result }
{
    let Some(tiles) = Tiles::of(slots, faces, solid) else {
        return Err(Refusal::Mesh);
    };
    if !slots::zeros_from(slots, tiles.len()) {
        return Err(Refusal::Mesh);
    }
    if !balance::balanced(&tiles) {
        return Err(Refusal::Mesh);
    }
    Ok(Mesh::new(tiles.codes(), faces))
}

/// The mesh in a slice, of the whole solid of its first slot.
pub fn examine(slots: &[u64]) -> Result<Mesh<'_>, Refusal>
    ensures { Examined (whole_of slots.now) slots.now result }
{
    if SLOTS < slots.len() {
        return Err(Refusal::Buffer);
    }
    if slots.is_empty() {
        return Err(Refusal::Mesh);
    }
    let Ok(solid) = Solid::try_from(Fields::of(slots[0]).solid) else {
        return Err(Refusal::Mesh);
    };
    examine_faces(slots, solid, Faces::all(solid))
}
