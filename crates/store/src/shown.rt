//! Paths, as they are printed in lines.

ghost use Rattle.std.specs.Prelude.{◌≡◌, ◌<◌, ◌/◌, ◌%◌, Some, encode_utf8};
ghost use Rattle.std.specs.Fmt.{WritesOnOk};
ghost use Rattle.store.specs.Shown.{digit_of, shown};

use std::fmt;

/// A path in a line of text. Its `Display` has each control character of ASCII as `\x` and two lower-case hexadecimal digits, so that the text
/// is one line, and all else as it is.
#[derive(Clone, Copy, Debug)]
pub struct ShownPath<'a>(pub &'a str);

// Returns the lower-case hexadecimal digit of a number.
fn digit_of(number: u8) -> char
    requires { number < 16 }
    ensures { result ≡ digit_of number }
{
    if number < 10 {
        char::from(b'0' + number)
    } else {
        char::from(b'a' - 10 + number)
    }
}

// Writes a character of a path.
fn write_shown<W: fmt::Write>(f: &mut fmt::Formatter<W>, c: char) -> fmt::Result
    ensures { WritesOnOk W.write_str_gives f.old result (shown (encode_utf8 c)) f.new }
{
    if !c.is_ascii_control() {
        return f.write_char(c);
    }
    let byte = c as u8;
    f.write_str("\\x")?;
    f.write_char(digit_of(byte / 16))?;
    f.write_char(digit_of(byte % 16))
}

impl fmt::Display for ShownPath<'_> {
    ghost output = { λ path. Some (shown path.0.now) };

    fn fmt<W: fmt::Write>(&self, f: &mut fmt::Formatter<W>) -> fmt::Result {
        let mut rest = self.0.chars();
        while let Some(c) = rest.next() {
            write_shown(f, c)?;
        }
        Ok(())
    }
}
