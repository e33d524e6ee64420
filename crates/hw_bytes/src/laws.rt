//! Laws of the definitions.

ghost use Rattle.std.specs.Prelude.{◌<◌, ◌^◌, ℕ, ℤ, FitsSigned, List, length};
ghost use Rattle.std.specs.Int.{w64};
ghost use Rattle.hw_bytes.specs.Spellings.{IsBytes, IsCode};
ghost use Rattle.hw_bytes.specs.Checksum.{crc32c};
ghost use Rattle.hw_bytes.specs.Numbers.{IsFixed, IsUvarint, IsVarint, IsText};
ghost use Rattle.hw_bytes.specs.Writing.{IsShortest, big_bytes, uvarint, varint, text};

/// Proves that bytes begin with at most one spelling of each form, and that it spells one value: so what a reader of
/// this crate returns is *the* spelling at the front.
pub fn one_spelling()
    ensures fixed { (width : ℕ) → 0 < width → IsCode (IsFixed width) }
    ensures uvarint { IsCode IsUvarint }
    ensures varint { IsCode IsVarint }
    ensures text { IsCode IsText }
{}

/// Proves of each form (a number of fixed width, a uvarint, a varint, a text) that what is written is a spelling, and
/// that no other spelling is as short.
pub fn shortest_spelling()
    ensures fixed { (width n : ℕ) → n < 256 ^ width → IsShortest (IsFixed width) (big_bytes width n) n }
    ensures uvarint { (n : ℕ) → n < 2 ^ 64 → IsShortest IsUvarint (uvarint n) n }
    ensures varint { (z : ℤ) → FitsSigned w64 z → IsShortest IsVarint (varint z) z }
    ensures text { (bytes : List ℕ) → IsBytes bytes → length bytes < 2 ^ 64 → IsShortest IsText (text bytes) bytes }
{}

/// Proves that a checksum has 32 bits.
pub fn checksum_fits()
    ensures { (bytes : List ℕ) → IsBytes bytes → crc32c bytes < 2 ^ 32 }
{}
