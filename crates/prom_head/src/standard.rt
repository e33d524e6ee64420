//! Standard output.

ghost use Rattle.std.specs.Prelude.{⊤};

use answers::{Output, PrintFault};
use std::io::ErrorKind;

/// Standard output, and whether its reader has closed its end.
#[derive(Drop)]
pub(crate) struct Standard<'r, R: Print> {
    rt: &'r R,
    is_closed: bool,
}

impl<'r, R: Print> Standard<'r, R> {
    /// Makes one that has printed nothing.
    pub(crate) fn new(rt: &'r R) -> Standard<'r, R> {
        Standard {
            rt,
            is_closed: false,
        }
    }

    /// Returns whether a text was refused since nobody reads it.
    pub(crate) fn is_closed(&self) -> bool {
        self.is_closed
    }
}

impl<R: Print> Output for Standard<'_, R> {
    ghost printed = { λ _ _ _. ⊤ };

    fn print(&mut self, text: &str) -> Result<(), PrintFault> {
        match self.rt.write_all(text.as_bytes()) {
            Ok(()) => Ok(()),
            Err(error) => {
                self.is_closed = error.kind() == ErrorKind::BrokenPipe;
                Err(PrintFault::Refused)
            }
        }
    }
}
