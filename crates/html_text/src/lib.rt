//! HTML text. Whatever words are written, no byte of them becomes markup, and each element that begins ends.
#![tactic(auto)]

mod escaped;
mod names;
mod writer;

pub use escaped::Escaped;
pub use names::{Attribute, Tag};
pub use writer::HtmlWriter;
