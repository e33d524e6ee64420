//! What is kept of the samples before one.

ghost use Rattle.std.specs.Prelude.{◌≡◌, ◌+◌, ◌≤◌};
ghost use Rattle.std.specs.Int.{w64, cast_signed};
ghost use Rattle.xor_chunk.specs.Chunks.{width};

use crate::sample::Sample;

// How many of the 64 bits are zeros, above and below those that are written.
#[derive(Clone, Copy, Debug)]
pub(crate) struct BitWindow {
    pub(crate) leading: u32,
    pub(crate) trailing: u32,
}

impl BitWindow {
    // Returns how many bits are written.
    pub(crate) fn width(&self) -> u32
        requires { self.now.leading + self.now.trailing ≤ 64 }
        ensures { result ≡ width self.now }
    {
        64 - self.leading - self.trailing
    }
}

// The sample before, as bits, with its time's difference from the one before it, and the last window that was opened.
#[derive(Clone, Copy, Debug)]
pub(crate) struct Before {
    pub(crate) time: u64,
    pub(crate) value: u64,
    pub(crate) delta: u64,
    pub(crate) window: Option<BitWindow>,
}

impl Before {
    // The sample itself.
    pub(crate) fn sample(&self) -> Sample
        ensures { result ≡ record { time = cast_signed w64 self.now.time; value = cast_signed w64 self.now.value } }
    {
        Sample {
            time: self.time.cast_signed(),
            value: self.value.cast_signed(),
        }
    }
}

// What is kept of all samples of a chunk.
#[derive(Clone, Copy, Debug)]
pub(crate) enum Last {
    // There is none.
    Nothing,
    // The only one.
    First(Sample),
    // The last one of two or more.
    Later(Before),
}
