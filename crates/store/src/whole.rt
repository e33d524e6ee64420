//! Bytes that are read and written whole, or read part by part.

ghost use Rattle.std.specs.Prelude.{◌≡◌, ◌<◌, ◌≤◌, IfOk, IfSome, OnOk, length, take};
ghost use Rattle.std.specs.Io.KnownBytes.{Appends, Consumes, IsAtEnd};

use crate::store::StoreFault;
use std::alloc::Global;
use std::io;
use std::io::{ErrorKind, Read, Write};

/// The most calls of `read` for one file. A device that never ends is refused after them.
pub(crate) const MOST_READS: u64 = 4_294_967_296;

// A reader that returns an error once `reads_left` calls of `read` were made.
#[derive(Drop)]
struct Limited<'a, R> {
    reader: &'a mut R,
    reads_left: u64,
}

impl<R: Read> Read for Limited<'_, R> {
    ghost remaining = { λ l. R.remaining l.reader.now };

    fn read(&mut self, buf: &mut [u8]) -> io::Result<usize> {
        if self.reads_left == 0 {
            return Err(io::Error::from(ErrorKind::TimedOut));
        }
        self.reads_left -= 1;
        self.reader.read(buf)
    }
}

/// Reads a reader to its end. `length` is the number of bytes that it is expected to have; it may have fewer or more. Returns an error
/// where the reader fails, where its end does not come within `MOST_READS` calls of `read`, or where memory runs out.
pub fn read_whole<R: Read>(
    alloc: Global,
    reader: &mut R,
    length: u64,
) -> Result<Vec<u8>, StoreFault>
    ensures { IfOk result (λ bytes. IfSome (R.remaining reader.old) (λ rest. bytes.items ≡ rest)) }
{
    // one byte more than it has, so that the end is found without growing the buffer
    let mut bytes = Vec::with_capacity(alloc, (length as usize).saturating_add(1))?;
    let mut limited = Limited {
        reader,
        reads_left: MOST_READS,
    };
    limited.read_to_end(&mut bytes)?;
    Ok(bytes)
}

/// Reads the next bytes of a reader into `buf`, by at most `calls` calls of `read`, which are counted down: as many as it has left, or as `buf`
/// has room for. Returns how many. Returns an error where the reader fails, or where the calls do not suffice.
pub fn fill_next<R: Read>(
    reader: &mut R,
    calls: &mut u64,
    buf: &mut [u8],
) -> Result<usize, StoreFault>
    ensures within { IfOk result (λ n. n ≤ length buf.new) }
    ensures length { length buf.new ≡ length buf.old }
    ensures bytes { IfOk result (λ n. Consumes (R.remaining reader.old) (R.remaining reader.new) (take n buf.new)) }
    ensures end { IfOk result (λ n. n < length buf.new → IsAtEnd (R.remaining reader.new)) }
{
    let mut filled = 0;
    while filled < buf.len() {
        if *calls == 0 {
            return Err(StoreFault::from(io::Error::from(ErrorKind::TimedOut)));
        }
        *calls -= 1;
        match reader.read(&mut buf[filled..]) {
            Ok(0) => break,
            Ok(count) => filled += count,
            Err(error) if error.kind() == ErrorKind::Interrupted => {}
            Err(error) => return Err(StoreFault::from(error)),
        }
    }
    Ok(filled)
}

/// Writes all of these bytes to a writer, in order, after what was written to it before, however few it takes at a time. Returns an error
/// where the writer fails, or takes nothing: what it took of the bytes stays written.
pub fn write_whole<W: Write>(writer: &mut W, bytes: &[u8]) -> Result<(), StoreFault>
    ensures { OnOk result (Appends (W.contents writer.old) (W.contents writer.new) bytes.now) }
{
    Ok(writer.write_all(bytes)?)
}
