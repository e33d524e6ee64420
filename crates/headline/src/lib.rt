//! What is proved of the whole, on one page.
//!
//! **A log has one head.** [`however_dealt`], clause `head`: take any checkpoint, any segments and any least valid time. Whatever two replays
//! of them give, the two heads show the same series, samples, hidden times, postings and counts, and the same damage is reported. What a replay gives
//! is said by `IsReplayed`, which reads the records one after another and knows of no worker: `replay` ensures it with 1 to 64 workers, and
//! `replay_serial_from` with none. So the workers, and how the work was dealt to them, change nothing.
//!
//! **An hour has one block.** Clauses `block` and `one`: what is cut from such a head is the block of the log, and the log has one block for an
//! hour, a name and an encoding of chunks, byte for byte.
//!
//! **What is behind a damage changes nothing.** [`damage_ends_reading`]: the commands read the files of a directory one after another, and
//! stop at the first damage. If nobody changes the directory meanwhile, what they have read is what the log of all its files reads as.
//!
//! **Samples of some times suffice.** [`times_suffice`]: a replay may keep the samples of some times alone, such as an hour. A log has one such
//! head, too, which shows of these times what the head with all samples shows, and all else; and what is cut of it is the block of the log.
//!
//! **A rescue adds nothing and leaves out nothing that can be read.** [`stretches_read`]: the log that a rescue replays has just the records
//! of the stretches that are whole in the files of the directory, in order. Clauses `records` and `rescued` of [`however_dealt`]: that log
//! reads as these records, without damage, and each byte of its blocks is defined by them.
//!
//! **A checkpoint changes nothing that is still valid.** [`checkpoint_equivalence`] and [`whole_checkpoint_equivalence`]: let a checkpoint be
//! made of the first part of a log. It replays, with the rest, to what the whole log replays to: the same series, samples, hidden runs, postings and
//! owners, and the same damage.
//!
//! **No least valid time is the least one.** [`no_limit`]: with the least time of 64 bits all records are taken, and none is expired.
//!
//! All of this is of runs to which no memory and no thread is refused; where one is, the functions return an error in place of a head or a
//! block. The functions here do nothing when they are called: each is a law, whose clauses are proved for all values that they name. The
//! definitions behind the head and its blocks are in docs/READING.md, in the order in which to read them; docs/DEFINITIONS.md lists the others.
#![tactic(auto)]

mod directories;
mod laws;
mod stretches;
mod times;

pub use directories::damage_ends_reading;
pub use laws::{checkpoint_equivalence, however_dealt, no_limit, whole_checkpoint_equivalence};
pub use stretches::stretches_read;
pub use times::times_suffice;
