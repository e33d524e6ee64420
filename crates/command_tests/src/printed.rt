//! What commands print while they go on.

ghost use Rattle.std.specs.Prelude.{◌≡◌, ◌++◌, string_bytes};

use answers::{Answer, Fault, Output, PrintFault};
use std::alloc::Global;

/// An output that keeps what is printed, up to so many pieces, and refuses those after them.
#[derive(Drop)]
pub struct Printed {
    pub text: String,
    pub pieces_left: u64,
}

impl Output for Printed {
    ghost printed = { λ first text last. string_bytes last.text ≡ string_bytes first.text ++ text };

    fn print(&mut self, text: &str) -> Result<(), PrintFault> {
        if self.pieces_left == 0 {
            return Err(PrintFault::Refused);
        }
        self.pieces_left -= 1;
        self.text.push_str(text)?;
        Ok(())
    }
}

impl Printed {
    /// Makes one that refuses nothing.
    pub fn new(alloc: Global) -> Printed {
        Printed {
            text: String::new(alloc),
            pieces_left: u64::MAX,
        }
    }

    /// Returns the answer with all that was printed.
    pub fn with(self, alloc: Global, answer: Answer) -> Answer {
        let mut text = self.text;
        match text.push_str(&answer.printed) {
            Ok(()) => Answer {
                printed: text,
                ..answer
            },
            Err(_) => Answer::failed(alloc, Fault::OutOfMemory),
        }
    }
}
