//! A device that fails once it is full.

use std::alloc::Global;
use std::io::{self, ErrorKind, Write};

/// A device that has room for so many bytes more, takes as many of a call's bytes as it has room for, and then fails.
#[derive(Drop)]
pub struct Device {
    pub taken: Vec<u8>,
    room: usize,
}

impl Device {
    pub fn new(alloc: Global, room: usize) -> Device {
        Device {
            taken: Vec::new(alloc),
            room,
        }
    }
}

impl Write for Device {
    ghost use Rattle.std.specs.Prelude.{Some};

    ghost contents = { λ d. Some d.taken.items };

    fn write(&mut self, buf: &[u8]) -> io::Result<usize> {
        if self.room == 0 {
            return Err(io::Error::from(ErrorKind::Other));
        }
        let count = buf.len().min(self.room);
        self.taken.extend_from_slice(&buf[..count])?;
        self.room -= count;
        Ok(count)
    }

    fn flush(&mut self) -> io::Result<()> {
        Ok(())
    }
}
