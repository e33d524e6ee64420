//! Laws of the definitions.

ghost use Rattle.std.specs.Prelude.{◌≡◌, ◌≤◌, ◌<◌, ◌^◌, ◌++◌, ◌∷◌, ℕ, List, All, length};
ghost use Rattle.hw_bytes.specs.Sums.{Text};
ghost use Rattle.block_files.specs.declared.encoding.Encoding.{Encoding};
ghost use Rattle.block_files.specs.Files.{StandsAt, chunk_files, longest_chunk, reference_behind};

/// Each chunk of chunk files is found at its reference, if the limit is at least 4,096 and less than 2^32 bytes.
pub fn chunks_stand()
    ensures { (e : Encoding) (limit : ℕ) (before : List Text) (body : Text) (after : List Text) → 4096 ≤ limit → limit < 2 ^ 32
        → All (λ d. length d ≤ longest_chunk) (before ++ body ∷ after)
        → StandsAt e (chunk_files e limit (before ++ body ∷ after)) (reference_behind e limit before body) body }
{}

/// At most one chunk is found at a reference.
pub fn one_chunk_at_reference()
    ensures { (files : List Text) (reference : ℕ) (d e : Encoding) (a b : Text) → StandsAt d files reference a → StandsAt e files reference b → (d ≡ e) × (a ≡ b) }
{}
