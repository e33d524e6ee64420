//! Names for new blocks.

ghost use Rattle.std.specs.Prelude.{◌≡◌, ◌<◌, IfOk};
ghost use Rattle.block_commands.specs.Names.{digit_at, made_name};

use std::alloc::{AllocError, Global};

// the digits of Crockford's base 32
const DIGITS: [u8; 32] = *b"0123456789ABCDEFGHJKMNPQRSTVWXYZ";

// Returns the digit of a number at a place of 26, the highest first.
fn digit(number: u128, place: u32) -> u8
    requires { place < 26 }
    ensures { result ≡ digit_at number place }
{
    let rest = number >> (5 * (25 - place));
    DIGITS[(rest % 32) as usize]
}

/// Returns a ULID for a new block, made of a time in milliseconds since 1970, of which 48 bits count, and a random number, of which 80 bits
/// count. The time is first.
pub fn new_name(alloc: Global, millis: u64, random: u128) -> Result<Vec<u8>, AllocError>
    ensures { IfOk result (λ name. name.items ≡ made_name millis random) }
{
    let time = u128::from(millis) % (1 << 48);
    let number = time * (1 << 80) + random % (1 << 80);
    let mut name = Vec::with_capacity(alloc, 26)?;
    for place in 0..26 {
        name.push(digit(number, place))?;
    }
    Ok(name)
}
