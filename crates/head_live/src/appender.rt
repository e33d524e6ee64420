//! The appender of one thread: its answered rows, and its share of the accepted ones.

ghost use Rattle.std.specs.Prelude.{◌≡◌, map};
ghost use Rattle.head_live.specs.Told.{answer_of};

use crate::run::HeadRun;
use crate::told::Told;
use std::alloc::AllocError;
use std::marker::Model;
use std::sync::ledger::Share;

/// An appender of a shared head. It keeps the number of its accepted rows, and the verdict on each of its rows.
#[derive(Drop)]
pub struct Appender<K: HeadRun> {
    pub(crate) part: Share<K>,
    pub(crate) share: u64,
    pub(crate) told: Vec<Told>,
}

impl<K: HeadRun> Model for Appender<K> {
    ghost use Rattle.std.specs.Prelude.{◌≡◌, length, map};
    ghost use Rattle.head_live.specs.Told.{AppenderState, accepted_rows, answer_of};

    ghost Value = { AppenderState };

    ghost view = { λ a. record { share = a.share; told = map answer_of a.told.items } };

    ghost invariant = { λ a. (a.part.parts ≡ 1) × (a.part.amount ≡ a.share) × (a.share ≡ length (accepted_rows (map answer_of a.told.items))) };
}

impl<K: HeadRun> Appender<K> {
    /// Returns the number of its accepted rows.
    pub fn share(&self) -> u64
        ensures { result ≡ self.now.share }
    {
        self.share
    }

    // Reserves memory for more answered rows, so that this need not happen under the lock.
    pub(crate) fn make_room(&mut self, rows: usize) -> Result<(), AllocError>
        ensures { self.new ≡ self.old }
    {
        self.told.reserve(rows)
    }

    /// Returns its answered rows with their verdicts, in order.
    pub fn told(&self) -> &[Told]
        ensures { map answer_of result.now ≡ self.now.told }
    {
        self.told.as_slice()
    }
}
