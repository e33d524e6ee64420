//! What a sample is read as.

ghost use Rattle.std.specs.Prelude.{◌≡◌, ◌<◌, ◌≤◌, ◌+◌, ◌-◌, ◌^◌, [], ◌∷◌, ℕ, Err, Some, IfOk, IfErr};
ghost use Rattle.std.specs.Option.{option_map};
ghost use Rattle.xor_chunk.specs.Private.{IsOpen};
ghost use Rattle.xor_chunk.specs.Reading.{found_map, near_at, step_at, within_at, said_width as width_of, window_of, window_at, changed_at, value_at, sample_of, sample_at, samples_at, second_at, first_at};

use crate::before::{Before, BitWindow};
use crate::fault::XorFault;
use crate::reader::BitReader;
use crate::sample::Sample;
use hw_bytes::{be64_at, uvarint_at, varint_at};

// Takes a number above -2^near and at most 2^near.
fn read_near(bits: &mut BitReader<'_>, near: u32) -> Option<u64>
    requires { near < 32 }
    ensures { option_map (λ step. (step, bits.new)) result ≡ near_at near bits.old }
{
    let low = bits.read_bits(near + 1)?;
    if low > 1 << near {
        return Some(low + (u64::MAX - (1 << (near + 1))) + 1);
    }
    Some(low)
}

// Takes the difference of two differences of times.
fn read_step(bits: &mut BitReader<'_>) -> Option<u64>
    ensures { option_map (λ step. (step, bits.new)) result ≡ step_at bits.old }
{
    if !bits.read_bit()? {
        return Some(0);
    }
    if !bits.read_bit()? {
        return read_near(bits, 13);
    }
    if !bits.read_bit()? {
        return read_near(bits, 16);
    }
    if !bits.read_bit()? {
        return read_near(bits, 19);
    }
    bits.read_long(64)
}

// Takes the bits in the window.
fn read_within(bits: &mut BitReader<'_>, window: Option<BitWindow>) -> Option<u64>
    requires { IsOpen window }
    ensures { option_map (λ xor. (xor, bits.new)) result ≡ within_at window bits.old }
{
    let Some(open) = window else {
        return bits.read_long(64);
    };
    let number = bits.read_long(open.width())?;
    Some(number << open.trailing)
}

// Returns the width that six bits say.
fn said_width(low: u32) -> u32
    requires { low < 64 }
    ensures exact { result ≡ width_of low }
    ensures some { 0 < result }
    ensures most { result ≤ 64 }
{
    if low == 0 { 64 } else { low }
}

// Returns the window that eleven bits say.
fn said_window(head: u64) -> Result<BitWindow, XorFault>
    requires { head < 2 ^ 11 }
    ensures exact { result ≡ window_of head }
    ensures open { IfOk result (λ window. IsOpen (Some window)) }
{
    let leading = (head / 64) as u32;
    let width = said_width((head % 64) as u32);
    if leading + width > 64 {
        return Err(XorFault::BadWindow);
    }
    Ok(BitWindow {
        leading,
        trailing: 64 - leading - width,
    })
}

// Takes a window.
fn read_window(bits: &mut BitReader<'_>) -> Result<BitWindow, XorFault>
    ensures exact { found_map (λ window. (window, bits.new)) result ≡ window_at bits.old }
    ensures open { IfOk result (λ window. IsOpen (Some window)) }
{
    let Some(head) = bits.read_bits(11) else {
        return Err(XorFault::TooShort);
    };
    said_window(head)
}

// Takes a value that is not the one before, and gives it with the window after it.
fn read_changed(
    bits: &mut BitReader<'_>,
    window: Option<BitWindow>,
    value: u64,
) -> Result<(u64, Option<BitWindow>), XorFault>
    requires { IsOpen window }
    ensures exact { found_map (λ found. (found.0, found.1, bits.new)) result ≡ changed_at value window bits.old }
    ensures open { IfOk result (λ found. IsOpen found.1) }
{
    let Some(xor) = read_within(bits, window) else {
        return Err(XorFault::TooShort);
    };
    Ok((value ^ xor, window))
}

// Takes a value after the one before, and gives it with the window after it.
fn read_value(
    bits: &mut BitReader<'_>,
    window: Option<BitWindow>,
    value: u64,
) -> Result<(u64, Option<BitWindow>), XorFault>
    requires { IsOpen window }
    ensures exact { found_map (λ found. (found.0, found.1, bits.new)) result ≡ value_at window value bits.old }
    ensures open { IfOk result (λ found. IsOpen found.1) }
{
    let Some(changed) = bits.read_bit() else {
        return Err(XorFault::TooShort);
    };
    if !changed {
        return Ok((value, window));
    }
    let Some(opens) = bits.read_bit() else {
        return Err(XorFault::TooShort);
    };
    if !opens {
        return read_changed(bits, window, value);
    }
    let window = read_window(bits)?;
    read_changed(bits, Some(window), value)
}

// Takes a sample after two or more others.
pub(crate) fn read_later(bits: &mut BitReader<'_>, before: Before) -> Result<Before, XorFault>
    requires { IsOpen before.window }
    ensures exact { found_map (λ next. (next, bits.new)) result ≡ sample_at before bits.old }
    ensures open { IfOk result (λ next. IsOpen next.window) }
{
    let Some(step) = read_step(bits) else {
        return Err(XorFault::TooShort);
    };
    let delta = before.delta.wrapping_add(step);
    let (value, window) = read_value(bits, before.window, before.value)?;
    Ok(Before {
        time: before.time.wrapping_add(delta),
        value,
        delta,
        window,
    })
}

// Reads the first sample. Returns it, and the bytes after it.
pub(crate) fn read_first(bytes: &[u8]) -> Result<(Sample, &[u8]), XorFault>
    ensures found { IfOk result (λ found. (count : ℕ) → (count ≡ 0 → ⊥) → first_at count bytes.now ≡ second_at count found.0 found.1.now) }
    ensures fault { IfErr result (λ fault. (count : ℕ) → (count ≡ 0 → ⊥) → first_at count bytes.now ≡ Err fault) }
{
    let Some((time, len)) = varint_at(bytes) else {
        return Err(XorFault::BadNumber);
    };
    let (_, behind) = bytes.split_at(len);
    let Some(value) = be64_at(behind) else {
        return Err(XorFault::TooShort);
    };
    let (_, rest) = behind.split_at(8);
    let first = Sample {
        time,
        value: value.cast_signed(),
    };
    Ok((first, rest))
}

// Takes the second sample from bytes, and begins the bits after them.
pub(crate) fn read_second<'a>(
    bits: &mut BitReader<'a>,
    first: Sample,
    bytes: &'a [u8],
) -> Result<Before, XorFault>
    ensures found { IfOk result (λ before. (n : ℕ) → second_at (n + 2) first bytes.now ≡ found_map (λ more. first ∷ sample_of before ∷ more) (samples_at n [] before bits.new)) }
    ensures fault { IfErr result (λ fault. (n : ℕ) → second_at (n + 2) first bytes.now ≡ Err fault) }
    ensures open { IfOk result (λ before. IsOpen before.window) }
{
    let Some((delta, len)) = uvarint_at(bytes) else {
        return Err(XorFault::BadNumber);
    };
    let (_, rest) = bytes.split_at(len);
    *bits = BitReader::new(rest);
    let (value, window) = read_value(bits, None, first.value.cast_unsigned())?;
    Ok(Before {
        time: first.time.cast_unsigned().wrapping_add(delta),
        value,
        delta,
        window,
    })
}
