//! Reading a floating point number.

ghost use Rattle.std.specs.Prelude.{◌≡◌, ℤ, IfNone, IfSome};
ghost use Rattle.float_text.specs.FloatText.{Reads, digits_bits, name_bits, number_bits};

use crate::not_a_number::{NORMAL_NAN, STALE_NAN, is_nan};

// Returns the bits of the number that a text spells, or `None` if it spells no number.
fn number_bits(text: &str) -> Option<u64>
    ensures { result ≡ number_bits text.now }
{
    let number: f64 = fast_float::parse(text).ok()?;
    if number.is_nan() {
        return None;
    }
    Some(number.to_bits())
}

// Returns the bits of a not-a-number from its 16 hexadecimal digits, or `None` if the text is anything else.
fn digits_bits(digits: &str) -> Option<u64>
    ensures { result ≡ digits_bits digits.now }
{
    let bits = u64::from_str_radix(digits, 16).ok()?;
    if digits.len() != 16 || !is_nan(bits) {
        return None;
    }
    Some(bits)
}

// Returns the bits of the not-a-number that a text names, or `None` if it names none.
fn name_bits(text: &str) -> Option<u64>
    ensures { result ≡ name_bits text.now }
{
    if text.eq_ignore_ascii_case("nan") {
        return Some(NORMAL_NAN);
    }
    if text == "stale" {
        return Some(STALE_NAN);
    }
    digits_bits(text.strip_prefix("NaN:")?)
}

/// Returns the bits of the 64 bit floating point number that a text spells:
///
/// - A decimal number, such as `8`, `-0.5` or `1e-7`, is the floating point number nearest to it. One that is too large is an infinity.
/// - `inf` and `infinity`, in either case and with or without a sign, are the infinities.
/// - `NaN`, in either case and without a sign, is the not-a-number with the bits `0x7ff8000000000001`.
/// - `stale` is the staleness marker, whose bits are `0x7ff0000000000002`.
/// - `NaN:` is followed by the bits of a not-a-number, as 16 hexadecimal digits in either case.
///
/// Returns `None` for any other text, such as the empty one or one with a space.
#[tactic(auto, unfolding(crate::specs::FloatText::float_bits))]
pub fn bits_of_text(text: &str) -> Option<i64>
    ensures spelled { IfSome result (λ bits. Reads text.now bits) }
    ensures none { IfNone result ((bits : ℤ) → Reads text.now bits → ⊥) }
{
    match number_bits(text) {
        Some(bits) => Some(bits.cast_signed()),
        None => Some(name_bits(text)?.cast_signed()),
    }
}
