//! Cases, and the texts that they are to give.

use std::alloc::{AllocError, Global};
use std::fmt::Debug;
use std::process::Abort;

// A call, or a few, with all that they take. What they give is a text.
pub(crate) trait Case {
    fn text(&self, alloc: Global) -> Result<String, AllocError>;
}

// The value as text.
pub(crate) fn shown<T: Debug + Drop>(alloc: Global, value: T) -> Result<String, AllocError> {
    format!(in alloc; "{value:?}")
}

// Ends the test where a case does not give the text beside it.
pub(crate) fn check<C: Case, R: Abort + AllocGlobal>(rt: &R, cases: &[(C, &str)]) {
    for (at, (case, wanted)) in cases.iter().enumerate() {
        let found = case.text(rt.alloc()).expect(rt, "memory");
        assert_eq!(rt; found.as_str(), *wanted, "case {at}");
    }
}

// The value of a hexadecimal digit.
fn digit(digit: u8) -> Option<u8> {
    match digit {
        b'0'..=b'9' => Some(digit - b'0'),
        b'A'..=b'F' => Some(digit - b'A' + 10),
        _ => None,
    }
}

// The bytes of hexadecimal digits, two for each, between which there may be spaces.
pub(crate) fn of_hex(alloc: Global, text: &str) -> Result<Vec<u8>, AllocError> {
    let mut bytes = Vec::new(alloc);
    let mut first = None;
    for digit in text.bytes().filter_map(digit) {
        first = match first {
            None => Some(digit),
            Some(high) => {
                bytes.push((high << 4) | digit)?;
                None
            }
        };
    }
    Ok(bytes)
}

// Puts these bytes in the place of those from `at` on, as far as there are any.
pub(crate) fn put_at(bytes: &mut [u8], at: usize, new: &[u8]) {
    for (i, byte) in new.iter().enumerate() {
        if let Some(place) = bytes.get_mut(at.wrapping_add(i)) {
            *place = *byte;
        }
    }
}
