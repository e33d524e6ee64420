//! A text that is being given.

ghost use Rattle.std.specs.Prelude.{◌≡◌, ◌<◌, length};
ghost use Rattle.std.proofs.Props.{props};

use wal_log::Place;

/// A text of which pages are left: the place of the first of them, the bytes of the text, and how many of them were given.
pub(crate) struct OpenText {
    pub(crate) place: Place,
    pub(crate) bytes: Vec<u8>,
    pub(crate) given: usize,
    ghost within: { given < length bytes.items } by { Prim.hlevel props },
}

// Written out, so that a function that drops one has a call in its proof, and not a copy of this body.
impl Drop for OpenText {
    fn drop(self) {
        let OpenText {
            place: _,
            bytes: _bytes,
            given: _,
        } = self;
    }
}

impl OpenText {
    /// Takes the text apart.
    pub(crate) fn into_parts(self) -> (Place, Vec<u8>, usize)
        ensures place { result.0 ≡ self.place }
        ensures bytes { result.1 ≡ self.bytes }
        ensures given { result.2 ≡ self.given }
        ensures within { result.2 < length result.1.items }
    {
        let OpenText {
            place,
            bytes,
            given,
        } = self;
        (place, bytes, given)
    }
}
