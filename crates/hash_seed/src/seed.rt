//! Seeds.

ghost use Rattle.std.specs.Prelude.{◌≡◌};
ghost use Rattle.hash_seed.specs.Hashing.{hasher_of};

use crate::hasher::SeededHasher;
use std::fmt;
use std::hash::BuildHasher;

/// A seed of hashes. Whoever knows it can choose texts that have the same hash.
#[derive(Clone, Copy, PartialEq, Eq)]
pub struct HashSeed {
    start: u64,
    factor: u64,
}

// The seed that all know: the first 128 bits after the point of pi, in base 2.
const KNOWN: HashSeed = HashSeed {
    start: 0x243f_6a88_85a3_08d3,
    factor: 0x1319_8a2e_0370_7344,
};

impl HashSeed {
    /// Makes a seed of two numbers, best from the random bits of the system.
    pub fn new(start: u64, factor: u64) -> HashSeed {
        HashSeed { start, factor }
    }

    /// Returns the seed that all know. It is for tables whose texts nobody else chooses.
    pub fn known() -> HashSeed {
        KNOWN
    }
}

impl BuildHasher for HashSeed {
    type Hasher = SeededHasher;

    ghost build_hasher = { hasher_of };

    fn build_hasher(&self) -> SeededHasher {
        SeededHasher::new(self.start, self.factor)
    }
}

// A seed is not printed.
impl fmt::Debug for HashSeed {
    fn fmt<W: fmt::Write>(&self, f: &mut fmt::Formatter<W>) -> fmt::Result {
        f.write_str("HashSeed")
    }
}
