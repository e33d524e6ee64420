//! Bytes that are made piece by piece, while they are written.

ghost use Rattle.std.specs.Prelude.{◌≡◌, ℕ, ◌-◌, List, [], ◌++◌, IfOk, OnOk};
ghost use Rattle.std.specs.Io.KnownBytes.{Appends};
ghost use Rattle.store.specs.Moved.{Moves};

use crate::store::StoreFault;
use crate::whole::write_whole;
use std::alloc::{AllocError, Global};
use std::io::Write;

// A writer is given at least so many bytes at a time, but for the last ones.
const LEAST_BYTES: usize = 1 << 20;

/// Bytes that come in pieces, so that they are never in memory together.
pub trait Pieces {
    /// The bytes that are still to come, unless making them fails.
    ghost text: { Self → List ℕ };

    /// How many pieces they come in.
    ghost count: { Self → ℕ };

    /// Returns how many pieces are still to come.
    fn len(&self) -> usize
        ensures count { result ≡ count self.now }
        ensures ended { count self.now ≡ 0 → text self.now ≡ [] };

    /// Appends the next piece. Returns an error only if out of memory.
    fn next_piece(&mut self, bytes: &mut Vec<u8>) -> Result<(), AllocError>
        ensures next { OnOk result (bytes.old.items ++ text self.old ≡ bytes.new.items ++ text self.new) }
        ensures fewer { OnOk result (count self.new ≡ count self.old - 1) }
        ensures ended { OnOk result (count self.new ≡ 0 → text self.new ≡ []) };
}

/// Makes all pieces, and returns their bytes.
pub fn gather<P: Pieces>(alloc: Global, pieces: &mut P) -> Result<Vec<u8>, AllocError>
    ensures { IfOk result (λ bytes. bytes.items ≡ P.text pieces.old) }
{
    let mut bytes = Vec::new(alloc);
    for _ in 0..pieces.len() {
        pieces.next_piece(&mut bytes)?;
    }
    Ok(bytes)
}

// Writes the bytes if they are many, and keeps none of them then.
#[tactic(auto, using(crate::proofs::Moving::none_moved, crate::proofs::Moving::all_moved))]
fn write_many<W: Write>(writer: &mut W, bytes: &mut Vec<u8>) -> Result<(), StoreFault>
    ensures { OnOk result (Moves (W.contents writer.old) bytes.old.items (W.contents writer.new) bytes.new.items) }
{
    if bytes.len() >= LEAST_BYTES {
        write_whole(writer, bytes)?;
        bytes.clear();
    }
    Ok(())
}

/// Writes bytes to a writer as they come, after what was written to it before. About a megabyte of them is in memory at once, or one piece. Returns an
/// error where making them or the writer fails: what it took of the bytes stays written.
pub fn write_each<W: Write, P: Pieces>(
    alloc: Global,
    writer: &mut W,
    pieces: &mut P,
) -> Result<(), StoreFault>
    ensures { OnOk result (Appends (W.contents writer.old) (W.contents writer.new) (P.text pieces.old)) }
{
    let mut bytes = Vec::new(alloc);
    for _ in 0..pieces.len() {
        pieces.next_piece(&mut bytes)?;
        write_many(writer, &mut bytes)?;
    }
    write_whole(writer, &bytes)
}
