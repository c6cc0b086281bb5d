//! The three solids: how many faces and vertices each has, which vertices stand at a face's corners, which face lies across a
//! side, and which seams are mirrored. Faces and vertices are counted from 0.

#![tactic(auto)]

ghost use Rattle.std.specs.Prelude.{◌≡◌, ℕ, ◌<◌, refl};
ghost use Rattle.solids.specs.Triangles.{Side as Triangles·Side, side_no, DirectionTried};
ghost use Rattle.solids.specs.Solids.{Solid as Solids·Solid, Known, solid_no, solid_of, SolidTried, tetrahedron, octahedron, icosahedron, faces, vertices, corner_row, vertex, next_row, next_face, mirrored};
ghost use Rattle.solids.specs.Seams.{Seam};

use refusals::Refusal;

/// A side of a triangle, and the direction that leads over it. Numbers: left 0, right 1, vertical 2.
#[derive(Clone, Copy, Debug, PartialEq, Eq, Hash)]
pub enum Side {
    Left,
    Right,
    Vertical,
}

// A number is told by `number`, here and of solids, digits and refusals: `u64::from` would not say which number it is.
impl Side {
    /// The sides, by their numbers.
    pub const ALL: [Side; 3] = [Side::Left, Side::Right, Side::Vertical];

    pub fn number(self) -> u64
        ensures { result ≡ side_no self }
    {
        match self {
            Side::Left => 0,
            Side::Right => 1,
            Side::Vertical => 2,
        }
    }
}

impl TryFrom<u64> for Side {
    type Error = Refusal;

    ghost try_from_gives = { DirectionTried };

    fn try_from(direction: u64) -> Result<Side, Refusal> {
        match direction {
            0 => Ok(Side::Left),
            1 => Ok(Side::Right),
            2 => Ok(Side::Vertical),
            _ => Err(Refusal::Direction),
        }
    }
}

/// Where a corner stands in its triangle.
#[derive(Clone, Copy, Debug, PartialEq, Eq, Hash)]
pub enum Corner {
    Tip,
    Left,
    Right,
}

/// A solid. Numbers: tetrahedron 1, octahedron 2, icosahedron 3.
#[derive(Clone, Copy, Debug, PartialEq, Eq, Hash)]
pub enum Solid {
    Tetrahedron,
    Octahedron,
    Icosahedron,
}

impl TryFrom<u64> for Solid {
    type Error = Refusal;

    ghost try_from_gives = { SolidTried };

    fn try_from(solid: u64) -> Result<Solid, Refusal> {
        match solid {
            1 => Ok(Solid::Tetrahedron),
            2 => Ok(Solid::Octahedron),
            3 => Ok(Solid::Icosahedron),
            _ => Err(Refusal::Solid),
        }
    }
}

/// What each solid carries: its numbers of faces and vertices, and rows with a number for each face.
// A face is cast to index a row: `usize::try_from` would have a case that cannot be. That it is a face of the solid is asked where it
// is read: a type of a solid's faces would need the solid beside it.
pub trait Platonic {
    ghost solid: { Solids·Solid };

    ghost FACES: { ℕ };

    ghost VERTICES: { ℕ };

    /// How many faces the solid has.
    const FACES: u64;

    /// How many vertices it has.
    const VERTICES: u64;

    /// The vertices that stand at a corner of the faces.
    fn corner_row(corner: Corner) -> &'static [u8]
        ensures { result.now ≡ corner_row solid corner };

    /// The next faces over a side.
    fn next_row(side: Side) -> &'static [u8]
        ensures { result.now ≡ next_row solid side };

    /// The vertex at a corner of a face.
    #[tactic(auto, using(crate::proofs::Rows::corner_row_long, crate::proofs::Rows::vertex_read))]
    final fn vertex(face: u64, corner: Corner) -> u64
        requires { face < faces solid }
        ensures { result ≡ vertex solid face corner }
    {
        u64::from(Self::corner_row(corner)[face as usize])
    }

    /// The face across a side of a face.
    #[tactic(auto, using(crate::proofs::Rows::next_row_long))]
    final fn next_face(side: Side, face: u64) -> u64
        requires { face < faces solid }
        ensures { result ≡ next_face solid side face }
    {
        u64::from(Self::next_row(side)[face as usize])
    }

    ghost faces_counted: { FACES ≡ faces solid };

    ghost vertices_counted: { VERTICES ≡ vertices solid };
}

/// Four faces, three at a vertex.
#[derive(Clone, Copy, Debug, PartialEq, Eq)]
pub struct Tetrahedron;

impl Platonic for Tetrahedron {
    ghost solid = { tetrahedron };

    ghost FACES = { 4 };

    ghost VERTICES = { 4 };

    const FACES: u64 = 4;

    const VERTICES: u64 = 4;

    #[tactic(auto, unfolding(crate::specs::Solids::face_list))]
    fn corner_row(corner: Corner) -> &'static [u8] {
        match corner {
            Corner::Tip => &[2, 1, 3, 0],
            Corner::Left => &[0, 2, 1, 3],
            Corner::Right => &[1, 3, 0, 2],
        }
    }

    #[tactic(auto, unfolding(crate::specs::Solids::next_row))]
    fn next_row(side: Side) -> &'static [u8] {
        match side {
            Side::Left => &[3, 0, 1, 2],
            Side::Right => &[1, 2, 3, 0],
            Side::Vertical => &[2, 3, 0, 1],
        }
    }

    ghost faces_counted = { refl };

    ghost vertices_counted = { refl };
}

/// Eight faces, four at a vertex.
#[derive(Clone, Copy, Debug, PartialEq, Eq)]
pub struct Octahedron;

impl Platonic for Octahedron {
    ghost solid = { octahedron };

    ghost FACES = { 8 };

    ghost VERTICES = { 6 };

    const FACES: u64 = 8;

    const VERTICES: u64 = 6;

    #[tactic(auto, unfolding(crate::specs::Solids::face_list))]
    fn corner_row(corner: Corner) -> &'static [u8] {
        match corner {
            Corner::Tip => &[0, 0, 0, 0, 5, 5, 5, 5],
            Corner::Left => &[1, 2, 3, 4, 1, 2, 3, 4],
            Corner::Right => &[2, 3, 4, 1, 2, 3, 4, 1],
        }
    }

    #[tactic(auto, unfolding(crate::specs::Solids::next_row))]
    fn next_row(side: Side) -> &'static [u8] {
        match side {
            Side::Left => &[3, 0, 1, 2, 7, 4, 5, 6],
            Side::Right => &[1, 2, 3, 0, 5, 6, 7, 4],
            Side::Vertical => &[4, 5, 6, 7, 0, 1, 2, 3],
        }
    }

    ghost faces_counted = { refl };

    ghost vertices_counted = { refl };
}

/// Twenty faces, five at a vertex.
#[derive(Clone, Copy, Debug, PartialEq, Eq)]
pub struct Icosahedron;

impl Platonic for Icosahedron {
    ghost solid = { icosahedron };

    ghost FACES = { 20 };

    ghost VERTICES = { 12 };

    const FACES: u64 = 20;

    const VERTICES: u64 = 12;

    #[tactic(auto, unfolding(crate::specs::Solids::face_list))]
    fn corner_row(corner: Corner) -> &'static [u8] {
        match corner {
            Corner::Tip => &[
                0, 0, 0, 0, 0, 6, 7, 8, 9, 10, 2, 3, 4, 5, 1, 11, 11, 11, 11, 11,
            ],
            Corner::Left => &[1, 2, 3, 4, 5, 1, 2, 3, 4, 5, 6, 7, 8, 9, 10, 6, 7, 8, 9, 10],
            Corner::Right => &[2, 3, 4, 5, 1, 2, 3, 4, 5, 1, 7, 8, 9, 10, 6, 7, 8, 9, 10, 6],
        }
    }

    #[tactic(auto, unfolding(crate::specs::Solids::next_row))]
    fn next_row(side: Side) -> &'static [u8] {
        match side {
            Side::Left => &[
                4, 0, 1, 2, 3, 14, 10, 11, 12, 13, 5, 6, 7, 8, 9, 19, 15, 16, 17, 18,
            ],
            Side::Right => &[
                1, 2, 3, 4, 0, 10, 11, 12, 13, 14, 6, 7, 8, 9, 5, 16, 17, 18, 19, 15,
            ],
            Side::Vertical => &[
                5, 6, 7, 8, 9, 0, 1, 2, 3, 4, 15, 16, 17, 18, 19, 10, 11, 12, 13, 14,
            ],
        }
    }

    ghost faces_counted = { refl };

    ghost vertices_counted = { refl };
}

// A bit for each side of each solid, the icosahedron's first: whether seams across it are mirrored. The last three are of no
// solid.
const MIRRORED: u64 = 0b011_011_100_000;

/// How many faces the solid of a number has. A code's number is tested before a `Solid` is made of it: to make one first took
/// the step twice as long.
pub fn faces_of(solid: u64) -> u64
    requires { Known solid }
    ensures { result ≡ faces (solid_of solid) }
{
    match solid {
        1 => Tetrahedron::FACES,
        2 => Octahedron::FACES,
        _ => Icosahedron::FACES,
    }
}

impl Solid {
    pub fn number(self) -> u64
        ensures { result ≡ solid_no self }
    {
        match self {
            Solid::Tetrahedron => 1,
            Solid::Octahedron => 2,
            Solid::Icosahedron => 3,
        }
    }

    /// How many faces the solid has.
    pub fn faces(self) -> u64
        ensures { result ≡ faces self }
    {
        match self {
            Solid::Tetrahedron => Tetrahedron::FACES,
            Solid::Octahedron => Octahedron::FACES,
            Solid::Icosahedron => Icosahedron::FACES,
        }
    }

    /// How many vertices the solid has.
    pub fn vertices(self) -> u64
        ensures { result ≡ vertices self }
    {
        match self {
            Solid::Tetrahedron => Tetrahedron::VERTICES,
            Solid::Octahedron => Octahedron::VERTICES,
            Solid::Icosahedron => Icosahedron::VERTICES,
        }
    }

    /// The vertex at a corner of a face.
    pub fn vertex(self, face: u64, corner: Corner) -> u64
        requires { face < faces self }
        ensures { result ≡ vertex self face corner }
    {
        match self {
            Solid::Tetrahedron => Tetrahedron::vertex(face, corner),
            Solid::Octahedron => Octahedron::vertex(face, corner),
            Solid::Icosahedron => Icosahedron::vertex(face, corner),
        }
    }

    /// The face across a side of a face.
    pub fn next_face(self, side: Side, face: u64) -> u64
        requires { face < faces self }
        ensures { result ≡ next_face self side face }
    {
        match self {
            Solid::Tetrahedron => Tetrahedron::next_face(side, face),
            Solid::Octahedron => Octahedron::next_face(side, face),
            Solid::Icosahedron => Icosahedron::next_face(side, face),
        }
    }

    /// Whether the seam across a side of a face is mirrored: that goes by the side, but for the belt of the icosahedron. `&` and
    /// `|` are no branches.
    #[tactic(auto, using(crate::proofs::Rows::seam_told))]
    pub fn is_mirrored(self, side: Side, face: u64) -> bool
        ensures { result ≡ mirrored self side face }
    {
        let solid = self.number();
        let on_side = MIRRORED >> (3 * solid + side.number()) & 1 == 1;
        let off_belt = (solid < 3) | (face <= 4) | (15 <= face);
        on_side & off_belt
    }
}

/// Over the side that a direction names, the next face is another face that has both end vertices, and left is the reverse
/// of right.
pub fn the_rows_agree_with_the_corner_vertices()
    ensures { (so : Solids·Solid) (s : Triangles·Side) (f : ℕ) → f < faces so → Seam so s f }
{}
