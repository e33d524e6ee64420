//! Words, as they are written between tags and in the values of attributes.

ghost use Rattle.std.specs.Prelude.{◌≡◌, Some, encode_utf8};
ghost use Rattle.std.specs.Fmt.{WritesOnOk};
ghost use Rattle.html_text.specs.Html.{escaped};

use std::fmt;

/// Words in HTML text. Its `Display` has `&`, `<`, `>`, `"` and `'` as character references, and all else as it is.
#[derive(Clone, Copy, Debug)]
pub struct Escaped<'a>(pub &'a str);

// Writes a character.
fn write_escaped<W: fmt::Write>(f: &mut fmt::Formatter<W>, c: char) -> fmt::Result
    ensures { WritesOnOk W.write_str_gives f.old result (escaped (encode_utf8 c)) f.new }
{
    if c == '&' {
        f.write_str("&amp;")
    } else if c == '<' {
        f.write_str("&lt;")
    } else if c == '>' {
        f.write_str("&gt;")
    } else if c == '"' {
        f.write_str("&quot;")
    } else if c == '\'' {
        f.write_str("&#39;")
    } else {
        f.write_char(c)
    }
}

impl fmt::Display for Escaped<'_> {
    ghost output = { λ words. Some (escaped words.0.now) };

    fn fmt<W: fmt::Write>(&self, f: &mut fmt::Formatter<W>) -> fmt::Result {
        let mut rest = self.0.chars();
        while let Some(c) = rest.next() {
            write_escaped(f, c)?;
        }
        Ok(())
    }
}
