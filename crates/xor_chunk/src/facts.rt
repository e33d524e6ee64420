//! What holds of every slice of bytes and of samples. These functions do nothing: their clauses are for the proofs of their callers.

ghost use Rattle.std.specs.Prelude.{All};
ghost use Rattle.hw_bytes.specs.Spellings.{IsBytes};
ghost use Rattle.xor_chunk.specs.Samples.{IsFit};

use crate::sample::Sample;

// Each byte is below 256.
pub(crate) fn are_bytes(_bytes: &[u8])
    ensures { IsBytes _bytes.now }
{}

// The numbers of a sample fit in 64 bits.
fn is_fit(_sample: Sample)
    ensures { IsFit _sample }
{}

// The numbers of each sample fit in 64 bits.
pub(crate) fn are_fit(samples: &[Sample])
    ensures { All IsFit samples.now }
{
    for sample in samples {
        is_fit(*sample);
    }
}
