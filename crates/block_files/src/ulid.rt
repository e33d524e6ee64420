//! The names of blocks.

ghost use Rattle.std.specs.Prelude.{◌≡◌, IfOk, OnErr};
ghost use Rattle.block_files.specs.Ulids.{IsUlid, is_digit as is_digit_of};

use std::error::Error;
use std::fmt;
use std::marker::Model;

// Returns whether the byte is a digit of Crockford's base 32 in upper case.
fn is_digit(byte: u8) -> bool
    ensures { result ≡ is_digit_of byte }
{
    matches!(byte, b'0'..=b'9' | b'A'..=b'Z') && !matches!(byte, b'I' | b'L' | b'O' | b'U')
}

/// The name of a block: 26 digits of Crockford's base 32 in upper case, the first at most `7`. Contracts see its text.
#[derive(Clone, Copy, Debug, PartialEq, Eq)]
pub struct Ulid {
    digits: [u8; 26],
}

/// The error of parsing a ULID.
#[derive(Clone, Copy, Debug, PartialEq, Eq)]
pub struct BadUlid;

impl fmt::Display for BadUlid {
    fn fmt<W: fmt::Write>(&self, f: &mut fmt::Formatter<W>) -> fmt::Result {
        f.write_str("ulid must be 26 Crockford characters")
    }
}

impl Error for BadUlid {}

impl Model for Ulid {
    ghost use Rattle.hw_bytes.specs.Sums.{Text};
    ghost use Rattle.block_files.specs.Ulids.{IsUlid};

    ghost Value = { Text };

    ghost view = { λ u. u.digits };

    ghost inverse = { λ text. record { digits = text } };

    ghost invariant = { λ u. IsUlid u.digits };
}

impl Ulid {
    /// Parses a ULID.
    pub fn new(text: &str) -> Result<Ulid, BadUlid>
        ensures some { IfOk result (λ ulid. ulid ≡ text.now) }
        ensures bad { OnErr result (IsUlid text.now → ⊥) }
    {
        Ulid::from_bytes(text.as_bytes())
    }

    /// Parses a ULID from bytes.
    pub fn from_bytes(text: &[u8]) -> Result<Ulid, BadUlid>
        ensures some { IfOk result (λ ulid. ulid ≡ text.now) }
        ensures bad { OnErr result (IsUlid text.now → ⊥) }
    {
        if text.len() != 26 || text[0] > b'7' || !text.iter().all(|byte| is_digit(*byte)) {
            return Err(BadUlid);
        }
        let mut digits = [0; 26];
        digits.copy_from_slice(text);
        Ok(Ulid { digits })
    }

    /// Borrows its 26 digits. The clause `held` says what holds of every ULID.
    pub fn as_bytes(&self) -> &[u8]
        ensures digits { result.now ≡ self.now }
        ensures held { IsUlid self.now }
    {
        &self.digits
    }
}

impl fmt::Display for Ulid {
    fn fmt<W: fmt::Write>(&self, f: &mut fmt::Formatter<W>) -> fmt::Result {
        for byte in &self.digits {
            f.write_char(char::from(*byte))?;
        }
        Ok(())
    }
}
