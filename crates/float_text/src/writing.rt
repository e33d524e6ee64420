//! Writing a floating point number.

ghost use Rattle.std.specs.Prelude.{◌≡◌, ◌++◌, IsTrue, OnOk, Some, string_bytes, to_bits};
ghost use Rattle.std.specs.Int.{cast_unsigned, w64};
ghost use Rattle.std.specs.Float.{NotNan, binary64};
ghost use Rattle.std.specs.Float.Ieee.{nan_bits};
ghost use Rattle.float_text.specs.FloatText.{AppendsWord, Reads, float_bits, normal_nan, stale_nan};
ghost use lib.Chars.{codes};

use crate::not_a_number::{NORMAL_NAN, STALE_NAN, is_nan};
use ryu::Buffer;
use std::alloc::AllocError;

// Appends a number.
fn push_number(text: &mut String, number: f64) -> Result<(), AllocError>
    requires { NotNan number }
    ensures { OnOk result (AppendsWord (λ word. float_bits word ≡ Some (to_bits binary64 number))
        (string_bytes text.old) (string_bytes text.new)) }
{
    if number.is_finite() {
        text.push_str(Buffer::new().format_finite(number))
    } else if number.is_sign_negative() {
        text.push_str("-Inf")
    } else {
        text.push_str("+Inf")
    }
}

// Appends the name of the not-a-number with these bits.
fn push_name(text: &mut String, bits: u64) -> Result<(), AllocError>
    requires { IsTrue (nan_bits binary64 bits) }
    ensures word { OnOk result (AppendsWord (λ word. float_bits word ≡ Some bits)
        (string_bytes text.old) (string_bytes text.new)) }
    ensures normal { bits ≡ normal_nan → OnOk result (string_bytes text.new ≡ string_bytes text.old ++ codes "NaN") }
    ensures stale { bits ≡ stale_nan → OnOk result (string_bytes text.new ≡ string_bytes text.old ++ codes "stale") }
{
    match bits {
        NORMAL_NAN => text.push_str("NaN"),
        STALE_NAN => text.push_str("stale"),
        _ => write!(text, "NaN:{bits:x}"),
    }
}

/// Appends the 64 bit floating point number with these bits to a text, as one word that `bits_of_text` reads as the same bits.
///
/// A finite number is written with as few digits as are needed to read it back, such as `1.5`, `-0.0` or `1e300`, and the infinities are
/// `+Inf` and `-Inf`. The not-a-number with the bits `0x7ff8000000000001` is `NaN`, the staleness marker, whose bits are
/// `0x7ff0000000000002`, is `stale`, and any other not-a-number is `NaN:` and the 16 hexadecimal digits of its bits. The word has no space
/// and no line feed.
///
/// # Errors
///
/// Returns an error if memory runs out. The front of the word may then have been appended.
pub fn push_float(text: &mut String, bits: i64) -> Result<(), AllocError>
    ensures word { OnOk result (AppendsWord (λ word. Reads word bits) (string_bytes text.old) (string_bytes text.new)) }
    ensures normal { cast_unsigned w64 bits ≡ normal_nan → OnOk result (string_bytes text.new ≡ string_bytes text.old ++ codes "NaN") }
    ensures stale { cast_unsigned w64 bits ≡ stale_nan → OnOk result (string_bytes text.new ≡ string_bytes text.old ++ codes "stale") }
{
    let bits = bits.cast_unsigned();
    if is_nan(bits) {
        push_name(text, bits)
    } else {
        push_number(text, f64::from_bits(bits))
    }
}
