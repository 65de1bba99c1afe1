//! The face in which a telescope is, and the number that GetFace answers for it.

ghost use Rattle.std.specs.Prelude.{◌≡◌};
ghost use Rattle.gc_instrument.specs.Faces.{face_number, turned};

/// The face of the telescope: normal, or turned over.
#[derive(Clone, Copy, Debug)]
pub enum Face {
    Normal,
    Turned,
}

impl Face {
    /// The other face.
    pub fn turned(self) -> Face
        ensures { result ≡ turned self }
    {
        match self {
            Face::Normal => Face::Turned,
            Face::Turned => Face::Normal,
        }
    }

    /// 0 for normal and 1 for turned, as the manual's TMC_GetFace answers.
    pub fn number(self) -> i32
        ensures { result ≡ face_number self }
    {
        match self {
            Face::Normal => 0,
            Face::Turned => 1,
        }
    }
}
