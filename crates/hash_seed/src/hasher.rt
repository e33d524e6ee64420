//! Hashing.

ghost use Rattle.std.specs.Prelude.{◌≡◌, ◌+◌, ◌-◌, ◌/◌, ◌≤◌, ◌<◌, length};
ghost use Rattle.hash_seed.specs.Hashing.{after_blocks, after_bytes, folded as folded_of, half_at as half_at_of, hash_of, mixed as mixed_of, short_number as short_number_of, word_at as word_at_of};

use byteorder::{ByteOrder, LittleEndian};
use std::hash::Hasher;

/// A hasher with a seed. Each step multiplies two words, each joined with a part of the seed or of the hash so far, to 128 bits, and joins
/// the halves, as the hashes wyhash and foldhash do. It is not a cryptographic one.
#[derive(Clone, Copy, Drop)]
pub struct SeededHasher {
    state: u64,
    factor: u64,
}

// Multiplies to 128 bits, and joins the two halves.
fn folded(a: u64, b: u64) -> u64
    ensures { result ≡ folded_of a b }
{
    let product = u128::from(a) * u128::from(b);
    (product % (1 << 64)) as u64 ^ (product >> 64) as u64
}

// Reads the eight bytes from a place on.
fn word_at(bytes: &[u8], at: usize) -> u64
    requires { at + 8 ≤ length bytes.now }
    ensures { result ≡ word_at_of bytes.now at }
{
    LittleEndian::read_u64(&bytes[at..])
}

// Reads the four bytes from a place on.
fn half_at(bytes: &[u8], at: usize) -> u64
    requires { at + 4 ≤ length bytes.now }
    ensures { result ≡ half_at_of bytes.now at }
{
    u64::from(LittleEndian::read_u32(&bytes[at..]))
}

// Returns the state after the two words at these places.
fn mixed(factor: u64, bytes: &[u8], state: u64, first: usize, second: usize) -> u64
    requires first { first + 8 ≤ length bytes.now }
    requires second { second + 8 ≤ length bytes.now }
    ensures { result ≡ mixed_of factor bytes.now state first second }
{
    folded(
        state ^ word_at(bytes, first),
        factor ^ word_at(bytes, second),
    )
}

// Returns up to eight bytes as one number.
fn short_number(bytes: &[u8]) -> u64
    requires { length bytes.now ≤ 8 }
    ensures { result ≡ short_number_of bytes.now }
{
    let len = bytes.len();
    if len < 1 {
        return 0;
    }
    if len < 4 {
        let (first, middle, last) = (bytes[0], bytes[len / 2], bytes[len - 1]);
        return u64::from(first) | u64::from(middle) << 8 | u64::from(last) << 16;
    }
    half_at(bytes, 0) | half_at(bytes, len - 4) << 32
}

// Returns the state after more than eight bytes.
fn after_many(factor: u64, bytes: &[u8], state: u64) -> u64
    requires { 8 < length bytes.now }
    ensures { result ≡ mixed_of factor bytes.now (after_blocks factor bytes.now state ((length bytes.now - 1) / 16)) (length bytes.now - 16) (length bytes.now - 8) }
{
    let len = bytes.len();
    let mut state = state;
    for block in 0..(len - 1) / 16 {
        state = mixed(factor, bytes, state, 16 * block, 16 * block + 8);
    }
    mixed(factor, bytes, state, len.saturating_sub(16), len - 8)
}

impl SeededHasher {
    // Makes a hasher of a seed's two numbers.
    pub(crate) fn new(state: u64, factor: u64) -> SeededHasher
        ensures { result ≡ record { state = state; factor = factor } }
    {
        SeededHasher { state, factor }
    }
}

impl Hasher for SeededHasher {
    ghost write = { after_bytes };

    ghost finish = { hash_of };

    fn finish(&self) -> u64 {
        self.state
    }

    fn write(&mut self, bytes: &[u8]) {
        let len = bytes.len() as u64;
        self.state = if bytes.len() < 9 {
            folded(
                self.state ^ short_number(bytes),
                self.factor.wrapping_add(len),
            )
        } else {
            after_many(self.factor, bytes, self.state.wrapping_add(len))
        };
    }
}
