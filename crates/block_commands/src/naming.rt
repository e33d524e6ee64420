//! The name of a new block, by the clock.

ghost use Rattle.std.specs.Prelude.{◌≡◌, ℕ, IfOk, IfSome, string_bytes};
ghost use Rattle.block_commands.specs.Names.{made_name};

use crate::names::new_name;
use std::alloc::{AllocError, Global};
use std::random::RandomSource;
use std::time::{Clock, SystemTime, UNIX_EPOCH};

// Returns the milliseconds since 1970, or `None` if the clock gives no such time.
fn millis_now(rt: &impl Clock) -> Option<u64> {
    let now = SystemTime::now(rt).ok()?;
    let since = now.duration_since(UNIX_EPOCH).ok()?;
    u64::try_from(since.as_millis()).ok()
}

// Returns 128 of the system's random bits, or `None` if it gives none.
fn random_bits(rt: &impl RandomSource) -> Option<u128> {
    let mut bytes = [0; 16];
    rt.fill_bytes(&mut bytes).ok()?;
    Some(u128::from_le_bytes(bytes))
}

/// Returns a name for a new block: a ULID of the time and of random bits, or `None` if the system gives no time or no random bits.
pub fn name_of<R: Clock + RandomSource>(rt: &R, alloc: Global) -> Result<Option<String>, AllocError>
    ensures made { IfOk result (λ found. IfSome found (λ name. (millis random : ℕ) × (string_bytes name ≡ made_name millis random))) }
{
    let (Some(millis), Some(random)) = (millis_now(rt), random_bits(rt)) else {
        return Ok(None);
    };
    let name = new_name(alloc, millis, random)?;
    Ok(String::from_utf8(name).ok())
}
