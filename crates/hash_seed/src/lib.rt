//! Hashes with a seed.
//!
//! A table that finds texts by their hashes becomes a list, and each look-up as long as the table, if somebody chooses texts with the same
//! hash. That takes the function that computes the hash. So a table here is given a `HashSeed`, two numbers that nobody else knows, and its
//! hashes are those of this seed. What a table holds does not depend on the seed.
#![tactic(auto)]

mod hasher;
mod seed;

pub use hasher::SeededHasher;
pub use seed::HashSeed;
