//! The text of a sample's value: a 64 bit floating point number, which is kept as its bits. What is written is read as the same bits, those
//! of a not-a-number too. Nothing here reads or writes a file.
#![tactic(auto)]

mod laws;
mod not_a_number;
mod reading;
mod writing;

pub use laws::one_float;
pub use reading::bits_of_text;
pub use writing::push_float;
