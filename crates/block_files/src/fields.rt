//! Numbers at the front of bytes.

ghost use Rattle.std.specs.Prelude.{◌≡◌, ◌<◌, ◌^◌, ◌++◌, ℕ, ℤ, length, FitsSigned, IfSome, MatchOption};
ghost use Rattle.std.specs.Int.{w64};
ghost use Rattle.hw_bytes.specs.Sums.{Text};
ghost use Rattle.hw_bytes.specs.Writing.{uvarint, varint};

use hw_bytes::{uvarint_at, varint_at};

// Reads a uvarint, and returns it with the bytes after it.
pub(crate) fn front_uvarint(bytes: &[u8]) -> Option<(u64, &[u8])>
    ensures again { (n : ℕ) (rest : Text) → n < 2 ^ 64 → bytes.now ≡ uvarint n ++ rest → MatchOption result ⊥ (λ found. (found.0 ≡ n) × (found.1.now ≡ rest)) }
    ensures shorter { IfSome result (λ found. length found.1.now < length bytes.now) }
{
    let (number, len) = uvarint_at(bytes)?;
    let (_, rest) = bytes.split_at(len);
    Some((number, rest))
}

// Reads a varint, and returns it with the bytes after it.
pub(crate) fn front_varint(bytes: &[u8]) -> Option<(i64, &[u8])>
    ensures again { (z : ℤ) (rest : Text) → FitsSigned w64 z → bytes.now ≡ varint z ++ rest → MatchOption result ⊥ (λ found. (found.0 ≡ z) × (found.1.now ≡ rest)) }
    ensures fits { IfSome result (λ found. FitsSigned w64 found.0) }
    ensures shorter { IfSome result (λ found. length found.1.now < length bytes.now) }
{
    let (number, len) = varint_at(bytes)?;
    let (_, rest) = bytes.split_at(len);
    Some((number, rest))
}
