//! Spelling a label's bytes as text, and reading that text.

ghost use Rattle.std.specs.Prelude.{◌≡◌, ◌<◌, ◌≤◌, ◌/◌, ◌%◌, ◌∷◌, ◌++◌, [], IfOk, IfSome, MatchResult, OnOk, length, string_bytes, take};
ghost use Rattle.std.specs.Option.{option_map};
ghost use Rattle.answers.specs.Faults.{TellsNoDamage};
ghost use Rattle.answers.specs.Spellings.{SpellsPair, byte_spelling, digit_of, is_bare, pair_text, spelled};

use crate::fault::Fault;
use std::alloc::{AllocError, Global};

/// The name and the value of a label.
pub type Pair = (Vec<u8>, Vec<u8>);

// Returns whether a byte is printed as itself.
fn is_bare(byte: u8) -> bool
    ensures { result ≡ is_bare byte }
{
    byte.is_ascii_graphic() && byte != b'\\' && byte != b'='
}

// Returns the lower-case hexadecimal digit of a number.
fn digit_of(number: u8) -> u8
    requires { number < 16 }
    ensures digit { result ≡ digit_of number }
    ensures ascii { result < 128 }
{
    if number < 10 {
        b'0' + number
    } else {
        b'a' - 10 + number
    }
}

// Appends a byte as two lower-case hexadecimal digits after `\x`.
fn push_escaped(text: &mut String, byte: u8) -> Result<(), AllocError>
    ensures { OnOk result (string_bytes text.new ≡ string_bytes text.old ++ (92 ∷ 120 ∷ digit_of (byte / 16) ∷ digit_of (byte % 16) ∷ [])) }
{
    text.push_str("\\x")?;
    text.push(char::from(digit_of(byte / 16)))?;
    text.push(char::from(digit_of(byte % 16)))
}

// Appends the spelling of a byte.
fn push_byte(text: &mut String, byte: u8) -> Result<(), AllocError>
    ensures { OnOk result (string_bytes text.new ≡ string_bytes text.old ++ byte_spelling byte) }
{
    if is_bare(byte) {
        text.push(char::from(byte))
    } else {
        push_escaped(text, byte)
    }
}

/// Appends the spelling of a label's name or value. The bytes 0x21 to 0x7e except `\` and `=` are spelled as themselves, each other byte
/// as `\x` and two lower-case hexadecimal digits.
pub fn push_spelled(text: &mut String, label: &[u8]) -> Result<(), AllocError>
    ensures { OnOk result (string_bytes text.new ≡ string_bytes text.old ++ spelled label.now) }
{
    for byte in label {
        push_byte(text, *byte)?;
    }
    Ok(())
}

/// Appends a label as it is printed: `NAME=VALUE`.
pub fn push_pair(text: &mut String, name: &[u8], value: &[u8]) -> Result<(), AllocError>
    ensures { OnOk result (string_bytes text.new ≡ string_bytes text.old ++ pair_text name.now value.now) }
{
    push_spelled(text, name)?;
    text.push('=')?;
    push_spelled(text, value)
}

// Returns the number that a lower-case hexadecimal digit stands for.
fn digit(digit: u8) -> Option<u8>
    ensures digit { IfSome result (λ number. digit ≡ digit_of number) }
    ensures small { IfSome result (λ number. number < 16) }
{
    match digit {
        b'0'..=b'9' => Some(digit - b'0'),
        b'a'..=b'f' => Some(digit - b'a' + 10),
        _ => None,
    }
}

// Returns the byte whose spelling begins a word, and the length of that spelling.
fn front(word: &[u8]) -> Option<(u8, usize)>
    ensures some { IfSome result (λ r. 0 < r.1) }
    ensures within { IfSome result (λ r. r.1 ≤ length word.now) }
    ensures spelled { IfSome result (λ r. take r.1 word.now ≡ byte_spelling r.0) }
{
    let first = *word.first()?;
    if is_bare(first) {
        return Some((first, 1));
    }
    if word.len() < 4 || word[0] != b'\\' || word[1] != b'x' {
        return None;
    }
    let byte = digit(word[2])? * 16 + digit(word[3])?;
    if is_bare(byte) {
        return None;
    }
    Some((byte, 4))
}

// Returns the bytes that this word spells, or `None` if it spells none.
fn read_spelled(alloc: Global, word: &str) -> Result<Option<Vec<u8>>, AllocError>
    ensures { IfOk result (λ found. IfSome found (λ label. word.now ≡ spelled label.items)) }
{
    let mut label = Vec::new(alloc);
    let mut rest = word.as_bytes();
    while !rest.is_empty() {
        let Some((byte, taken)) = front(rest) else {
            return Ok(None);
        };
        label.push(byte)?;
        rest = &rest[taken..];
    }
    Ok(Some(label))
}

/// Reads a label of the form `NAME=VALUE`, both spelled as labels are printed. Returns its name and its value, or `None` if the word is no
/// such label. The word has exactly one `=`.
pub fn read_pair(alloc: Global, word: &str) -> Result<Option<Pair>, AllocError>
    ensures { IfOk result (λ found. IfSome found (λ pair. word.now ≡ pair_text pair.0.items pair.1.items)) }
{
    let Some((name, value)) = word.split_once('=') else {
        return Ok(None);
    };
    let Some(name) = read_spelled(alloc, name)? else {
        return Ok(None);
    };
    let Some(value) = read_spelled(alloc, value)? else {
        return Ok(None);
    };
    Ok(Some((name, value)))
}

// Reads a label that is spelled as labels are printed. Returns `NoPair` if the word is no such label.
fn pair_in(alloc: Global, word: &str) -> Result<Pair, Fault>
    ensures { MatchResult result (λ pair. word.now ≡ pair_text pair.0.items pair.1.items) TellsNoDamage }
{
    match read_pair(alloc, word)? {
        Some(pair) => Ok(pair),
        None => Err(Fault::NoPair),
    }
}

/// Reads the label of an option, spelled as labels are printed, if a word was given. Returns `NoPair` if the word is no such label.
pub fn pair_of(alloc: Global, word: Option<&str>) -> Result<Option<Pair>, Fault>
    ensures { MatchResult result (λ pair. SpellsPair (option_map (λ w. w.now) word.entry) (option_map (λ p. (p.0.items, p.1.items)) pair)) TellsNoDamage }
{
    match word {
        Some(word) => Ok(Some(pair_in(alloc, word)?)),
        None => Ok(None),
    }
}
