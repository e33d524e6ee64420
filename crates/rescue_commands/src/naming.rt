//! The names of new blocks: one after the other.

ghost use Rattle.std.specs.Prelude.{◌≡◌, IfOk, string_bytes};

use block_read::Ulid;
use std::alloc::{AllocError, Global};
use std::str;

// Returns the digit after this one, or `None` after the last one, `Z`.
fn digit_behind(digit: u8) -> Option<u8> {
    match digit {
        b'9' => Some(b'A'),
        b'H' => Some(b'J'),
        b'K' => Some(b'M'),
        b'N' => Some(b'P'),
        b'T' => Some(b'V'),
        b'Z'..=255 => None,
        _ => Some(digit + 1),
    }
}

/// Returns the name after this one, or `None` after the last one.
pub(crate) fn next_of(ulid: &Ulid) -> Option<Ulid> {
    let mut digits = [0; 26];
    digits.copy_from_slice(ulid.as_bytes());
    for place in (0..26).rev() {
        match digit_behind(digits[place]) {
            Some(digit) => {
                digits[place] = digit;
                return Ulid::from_bytes(&digits).ok();
            }
            None => digits[place] = b'0',
        }
    }
    None
}

// Returns whether a name, or it with `.tmp` after it, is this one.
fn is_name_of(name: &str, ulid: &Ulid) -> bool {
    let name = name.as_bytes();
    name.strip_suffix(b".tmp").unwrap_or(name) == ulid.as_bytes()
}

/// Returns the first name, from this one on, that is not among the names of a directory, nor with `.tmp` after it. Returns `None` if there is
/// none.
pub(crate) fn free_name(first: Ulid, names: &[String]) -> Option<Ulid> {
    let mut ulid = first;
    // each of the names takes one
    for _ in names {
        if !names.iter().any(|name| is_name_of(name, &ulid)) {
            return Some(ulid);
        }
        ulid = next_of(&ulid)?;
    }
    Some(ulid)
}

/// Returns the text of a name.
pub(crate) fn text_of(alloc: Global, ulid: &Ulid) -> Result<String, AllocError>
    ensures { IfOk result (λ text. string_bytes text ≡ ulid.now) }
{
    match str::from_utf8(ulid.as_bytes()) {
        Ok(text) => String::from_str(alloc, text),
        // not reached: a name is ASCII
        Err(_) => Err(AllocError),
    }
}
