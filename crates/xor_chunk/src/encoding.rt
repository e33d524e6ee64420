//! What a sample appends to a chunk.

ghost use Rattle.std.specs.Prelude.{◌≡◌, ◌<◌, ◌≤◌, ◌+◌, ◌^◌, ◌++◌, bit_xor};
ghost use Rattle.hw_bytes.specs.Writing.{uvarint};
ghost use Rattle.xor_chunk.specs.Bits.{bits_in};
ghost use Rattle.xor_chunk.specs.Private.{Holds, next_bits, next_last, next_whole};
ghost use Rattle.xor_chunk.specs.Chunks.{step_bits, opened, opening, reused, within, value_bits, window_after, sample_bits, after, second as second_of, is_whole, first_bytes, delta_bytes, is_near as near_of, pattern};

use crate::before::{Before, BitWindow, Last};
use crate::sample::Sample;
use crate::writer::BitWriter;
use hw_bytes::zigzag;

// Returns whether the bits are those of a signed number above -2^width and at most 2^width.
fn is_near(width: u32, step: u64) -> bool
    requires { width < 64 }
    ensures { result ≡ near_of width step }
{
    let near = 1u64 << width;
    step <= near || u64::MAX - near < step - 1
}

// Appends the difference of two differences of times: at most 68 bits.
#[inline(always)]
fn put_step(bits: &mut BitWriter, step: u64)
    requires { 68 ≤ bits.old.room }
    ensures bits { bits.new.bits ≡ bits.old.bits ++ step_bits step }
    ensures front { bits.new.front ≡ bits.old.front }
    ensures room { bits.old.room ≤ bits.new.room + 68 }
{
    if step == 0 {
        return bits.push(0, 1);
    }
    if is_near(13, step) {
        return bits.push((0b10 << 14) + step % (1 << 14), 16);
    }
    if is_near(16, step) {
        return bits.push((0b110 << 17) + step % (1 << 17), 20);
    }
    if is_near(19, step) {
        return bits.push((0b1110 << 20) + step % (1 << 20), 24);
    }
    bits.push(0b1111, 4);
    bits.push_long(step, 64);
}

// Returns the window of the bits that are not 0.
fn opened_window(xor: u64) -> BitWindow
    ensures { result ≡ opened xor }
{
    BitWindow {
        leading: xor.leading_zeros().min(31),
        trailing: xor.trailing_zeros(),
    }
}

// Appends the bits in the window.
#[inline(always)]
fn put_within(bits: &mut BitWriter, window: BitWindow, xor: u64)
    requires fits { Holds window xor }
    requires room { 64 ≤ bits.old.room }
    ensures bits { bits.new.bits ≡ bits.old.bits ++ within window xor }
    ensures front { bits.new.front ≡ bits.old.front }
    ensures room { bits.old.room ≤ bits.new.room + 64 }
{
    bits.push_long(xor >> window.trailing, window.width());
}

// Returns the last window, if there is one that leaves out no bit of the new one.
fn reused_window(window: Option<BitWindow>, fresh: BitWindow) -> Option<BitWindow>
    ensures { result ≡ reused window fresh }
{
    let open = window?;
    if open.leading <= fresh.leading && open.trailing <= fresh.trailing {
        return Some(open);
    }
    None
}

// Appends what opens a window.
fn put_opening(bits: &mut BitWriter, window: BitWindow)
    requires leading { window.leading < 32 }
    requires some { window.leading + window.trailing < 64 }
    requires room { 13 ≤ bits.old.room }
    ensures bits { bits.new.bits ≡ bits.old.bits ++ opening window }
    ensures front { bits.new.front ≡ bits.old.front }
    ensures room { bits.old.room ≤ bits.new.room + 13 }
{
    let upper = 96 + u64::from(window.leading);
    bits.push(upper * 64 + u64::from(window.width() % 64), 13);
}

// Appends a value, of which this is the difference from the one before: at most 77 bits. Returns the window after it, and whether the last
// number that was written has whole bytes.
#[inline(always)]
fn put_value(bits: &mut BitWriter, window: Option<BitWindow>, xor: u64) -> (Option<BitWindow>, bool)
    requires { 77 ≤ bits.old.room }
    ensures bits { bits.new.bits ≡ bits.old.bits ++ value_bits window xor }
    ensures after { result.0 ≡ window_after window xor }
    ensures whole { result.1 ≡ is_whole window xor }
    ensures front { bits.new.front ≡ bits.old.front }
    ensures room { bits.old.room ≤ bits.new.room + 77 }
{
    if xor == 0 {
        bits.push(0, 1);
        return (window, false);
    }
    let fresh = opened_window(xor);
    let Some(open) = reused_window(window, fresh) else {
        put_opening(bits, fresh);
        put_within(bits, fresh, xor);
        return (Some(fresh), fresh.width() % 8 == 0);
    };
    bits.push(0b10, 2);
    put_within(bits, open, xor);
    (Some(open), open.width() % 8 == 0)
}

// Appends the bytes of an uvarint: at most 80 bits.
fn put_uvarint(bits: &mut BitWriter, number: u64)
    requires { 80 ≤ bits.old.room }
    ensures bits { bits.new.bits ≡ bits.old.bits ++ bits_in (uvarint number) }
    ensures front { bits.new.front ≡ bits.old.front }
    ensures room { bits.old.room ≤ bits.new.room + 80 }
{
    let mut rest = number;
    while rest >= 128 {
        bits.push(rest % 128 + 128, 8);
        rest /= 128;
    }
    bits.push(rest, 8);
}

// Appends the first sample: at most 144 bits.
fn put_first(bits: &mut BitWriter, first: Sample)
    requires { 144 ≤ bits.old.room }
    ensures bits { bits.new.bits ≡ bits.old.bits ++ bits_in (first_bytes first) }
    ensures front { bits.new.front ≡ bits.old.front }
    ensures room { bits.old.room ≤ bits.new.room + 144 }
{
    put_uvarint(bits, zigzag(first.time));
    bits.push_long(first.value.cast_unsigned(), 64);
}

// Appends the second sample: at most 157 bits. Returns what is kept of it, and whether the last number that was written has whole bytes.
fn put_second(bits: &mut BitWriter, first: Sample, second: Sample) -> (Before, bool)
    requires { 157 ≤ bits.old.room }
    ensures bits { bits.new.bits ≡ bits.old.bits ++ (bits_in (delta_bytes first second) ++ value_bits None (bit_xor (pattern first.value) (pattern second.value))) }
    ensures after { result.0 ≡ second_of first second }
    ensures whole { result.1 ≡ is_whole None (bit_xor (pattern first.value) (pattern second.value)) }
    ensures front { bits.new.front ≡ bits.old.front }
    ensures room { bits.old.room ≤ bits.new.room + 157 }
{
    let time = second.time.cast_unsigned();
    let value = second.value.cast_unsigned();
    let delta = time.wrapping_sub(first.time.cast_unsigned());
    put_uvarint(bits, delta);
    let (window, whole) = put_value(bits, None, first.value.cast_unsigned() ^ value);
    let before = Before {
        time,
        value,
        delta,
        window,
    };
    (before, whole)
}

// Appends a sample after two or more others: at most 145 bits. Returns what is kept of it, and whether the last number that was written has
// whole bytes.
fn put_later(bits: &mut BitWriter, before: Before, sample: Sample) -> (Before, bool)
    requires { 145 ≤ bits.old.room }
    ensures bits { bits.new.bits ≡ bits.old.bits ++ sample_bits before sample }
    ensures after { result.0 ≡ after before sample }
    ensures whole { result.1 ≡ is_whole before.window (bit_xor before.value (pattern sample.value)) }
    ensures front { bits.new.front ≡ bits.old.front }
    ensures room { bits.old.room ≤ bits.new.room + 145 }
{
    let time = sample.time.cast_unsigned();
    let value = sample.value.cast_unsigned();
    let delta = time.wrapping_sub(before.time);
    put_step(bits, delta.wrapping_sub(before.delta));
    let (window, whole) = put_value(bits, before.window, before.value ^ value);
    let next = Before {
        time,
        value,
        delta,
        window,
    };
    (next, whole)
}

// Appends a sample: at most 157 bits. Returns what is kept of it, and whether the last number that was written has whole bytes.
#[tactic(auto, unfolding(crate::specs::Private::next_bits, crate::specs::Private::next_last, crate::specs::Private::next_whole))]
pub(crate) fn put_sample(bits: &mut BitWriter, last: Last, sample: Sample) -> (Last, bool)
    requires { 157 ≤ bits.old.room }
    ensures bits { bits.new.bits ≡ bits.old.bits ++ next_bits last sample }
    ensures last { result.0 ≡ next_last last sample }
    ensures whole { result.1 ≡ next_whole last sample }
    ensures front { bits.new.front ≡ bits.old.front }
    ensures room { bits.old.room ≤ bits.new.room + 157 }
{
    match last {
        Last::Nothing => {
            put_first(bits, sample);
            (Last::First(sample), true)
        }
        Last::First(first) => {
            let (before, whole) = put_second(bits, first, sample);
            (Last::Later(before), whole)
        }
        Last::Later(before) => {
            let (next, whole) = put_later(bits, before, sample);
            (Last::Later(next), whole)
        }
    }
}
