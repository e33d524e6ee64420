//! Laws of chunks.

ghost use Rattle.std.specs.Prelude.{◌≡◌, ◌↔◌, ◌<◌, ◌≤◌, ◌-◌, ◌^◌, ◌<ℤ◌, ◌≤ℤ◌, IsTrue, ℕ, pos, negsuc, List, [], ◌∷◌, All, Ok, length};
ghost use Rattle.std.specs.Int.{w64, cast_signed};
ghost use Rattle.xor_chunk.specs.Samples.{IsFit};
ghost use Rattle.xor_chunk.specs.Chunks.{is_near, xor_text};
ghost use Rattle.xor_chunk.specs.Reading.{unpacked};
ghost use Rattle.xor_chunk.specs.declared.sample.Sample.{Sample};

/// A chunk stands for one list of at most 65,535 samples. A list has one chunk, which `xor_text` gives.
pub fn one_xor_chunk()
    ensures { (a b : List Sample) → length a ≤ 65535 → length b ≤ 65535 → All IsFit a → All IsFit b → xor_text a ≡ xor_text b → a ≡ b }
{}

/// A chunk is read as the samples that it stands for.
pub fn reads_back()
    ensures { (samples : List Sample) → length samples ≤ 65535 → All IsFit samples → unpacked (xor_text samples) ≡ Ok samples }
{}

/// A chunk of at most 120 samples has at most 2,180 bytes.
pub fn short_chunk()
    ensures { (samples : List Sample) → length samples ≤ 120 → length (xor_text samples) ≤ 2180 }
{}

/// Two chunks that the server's own writer made: one sample, with an empty byte after its value, and six with a value that stays, windows
/// that are new and used again, and steps of 14 and 17 bits.
pub fn server_chunks()
    ensures one { xor_text ((record { time = negsuc 999; value = pos 4631107791820423168 }) ∷ []) ≡ (0 ∷ 1 ∷ 207 ∷ 15 ∷ 64 ∷ 69 ∷ 0 ∷ 0 ∷ 0 ∷ 0 ∷ 0 ∷ 0 ∷ 0 ∷ []) }
    ensures six { xor_text ((record { time = pos 1000; value = pos 4607182418800017408 }) ∷ (record { time = pos 16000; value = pos 4611686018427387904 }) ∷ (record { time = pos 31000; value = pos 4611686018427387904 }) ∷ (record { time = pos 46003; value = pos 4613937818241073152 }) ∷ (record { time = pos 70000; value = pos 9221120237041090561 }) ∷ (record { time = pos 50000; value = pos 9218868437227405314 }) ∷ []) ≡ (0 ∷ 6 ∷ 208 ∷ 15 ∷ 63 ∷ 240 ∷ 0 ∷ 0 ∷ 0 ∷ 0 ∷ 0 ∷ 0 ∷ 152 ∷ 117 ∷ 194 ∷ 95 ∷ 255 ∷ 32 ∷ 0 ∷ 246 ∷ 3 ∷ 194 ∷ 50 ∷ 44 ∷ 95 ∷ 127 ∷ 224 ∷ 0 ∷ 0 ∷ 0 ∷ 0 ∷ 0 ∷ 3 ∷ 170 ∷ 132 ∷ 112 ∷ 1 ∷ 0 ∷ 0 ∷ 0 ∷ 0 ∷ 0 ∷ 0 ∷ 96 ∷ []) }
{}

/// What is near of 64 bits: the signed number that they are is above -2^k and at most 2^k.
pub fn near_numbers()
    ensures { (k d : ℕ) → k < 63 → d < 2 ^ 64 → IsTrue (is_near k d) ↔ ((negsuc (2 ^ k - 1) <ℤ cast_signed w64 d) × (cast_signed w64 d ≤ℤ pos (2 ^ k))) }
{}
