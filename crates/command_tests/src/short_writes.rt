//! Bytes that are written to a writer that takes few at a time.

use crate::checks::{UNSAID, same};
use std::alloc::Global;
use std::io;
use std::io::{ErrorKind, Write};
use store::{StoreFault, write_whole};

// A writer that takes at most so many bytes a call, and of all calls at most so many bytes.
#[derive(Drop)]
pub(crate) struct Few {
    pub(crate) taken: Vec<u8>,
    most: usize,
    room: usize,
}

impl Few {
    pub(crate) fn new(alloc: Global, most: usize, room: usize) -> Few {
        Few {
            taken: Vec::new(alloc),
            most,
            room,
        }
    }
}

impl Write for Few {
    ghost use Rattle.std.specs.Prelude.{Some};

    ghost contents = { λ w. Some w.taken.items };

    fn write(&mut self, buf: &[u8]) -> io::Result<usize> {
        if self.room == 0 {
            return Err(io::Error::from(ErrorKind::Other));
        }
        let count = buf.len().min(self.most).min(self.room);
        self.taken.extend_from_slice(&buf[..count])?;
        self.room -= count;
        Ok(count)
    }

    fn flush(&mut self) -> io::Result<()> {
        Ok(())
    }
}

// However few bytes it takes at a time, it gets all, after those of the call before.
#[test]
fn few_at_a_time(rt: HostRuntime) -> Result<(), StoreFault> {
    for most in [1, 2, 3, 4, 5, 100] {
        let mut writer = Few::new(rt.alloc(), most, 100);
        write_whole(&mut writer, b"abcd")?;
        write_whole(&mut writer, b"")?;
        write_whole(&mut writer, b"efghi")?;
        same(&rt, most, writer.taken.as_slice(), b"abcdefghi");
    }
    Ok(())
}

// Where it is full before the end, that is reported.
#[test]
fn full_before_the_end(rt: HostRuntime) {
    for (most, room) in [(1, 0), (1, 3), (2, 3), (3, 3), (100, 3)] {
        let mut writer = Few::new(rt.alloc(), most, room);
        let told = write_whole(&mut writer, b"abcd");
        same(&rt, (most, room), told, Err(UNSAID));
        same(&rt, (most, room), writer.taken.as_slice(), &b"abcd"[..room]);
    }
}

// A writer that takes nothing and does not fail is refused, too.
#[test]
fn nothing_taken(rt: HostRuntime) {
    let mut writer = Few::new(rt.alloc(), 0, 1);
    same(&rt, "none", write_whole(&mut writer, b"a").is_err(), true);
    same(&rt, "none", write_whole(&mut writer, b"").is_ok(), true);
}
