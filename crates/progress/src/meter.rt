//! Progress of a replay, shown on a terminal.

use crate::extent::Extent;
use crate::gate::Progress;
use crate::line::Line;
use crate::pacer::Pacer;
use head_replay::Gate;
use std::mem;
use std::sync::Mutex;
use std::time::Clock;

/// Shows on standard error how far a replay is: one line, rewritten at most ten times a second and cleared at the end. It writes nothing
/// if standard error is not a terminal or the clock fails, and ignores errors of writing.
#[derive(Drop)]
pub struct Meter<'a, R> {
    rt: &'a R,
    is_terminal: bool,
    // `Some` during a replay. No thread waits for the lock: one thread begins and ends the replay, and in between only the first worker
    // takes it.
    pacer: Mutex<Option<Pacer>>,
}

impl<'a, R: Clock + Eprint> Meter<'a, R> {
    /// Returns a meter. `is_terminal` says whether standard error is a terminal: only then does it write.
    pub fn new(rt: &'a R, is_terminal: bool) -> Meter<'a, R> {
        Meter {
            rt,
            is_terminal,
            pacer: Mutex::new(None),
        }
    }

    // Returns the clock's time in milliseconds, or `None` if the clock fails.
    fn now(&self) -> Option<u64> {
        let now = self.rt.monotonic().ok()?;
        u64::try_from(now.as_millis()).ok()
    }

    fn begun(&self, extent: &Extent) -> Option<Pacer> {
        Some(Pacer::new(self.is_terminal, *extent, self.now()?))
    }

    // Replaces the pacer, and returns the old one.
    fn put(&self, pacer: Option<Pacer>) -> Option<Pacer> {
        let mut place = self.pacer.try_lock()?;
        mem::replace(&mut *place, pacer)
    }

    // Returns the line that is due now, if any.
    fn line(&self, turn: u64) -> Option<Line> {
        let now = self.now()?;
        let mut place = self.pacer.try_lock()?;
        match &mut *place {
            Some(pacer) => pacer.line(turn, now),
            None => None,
        }
    }
}

impl<R: Clock + Eprint> Gate for Meter<'_, R> {
    fn pass(&self, worker: usize, turn: u64) {
        if worker == 0
            && let Some(line) = self.line(turn)
        {
            let _ = self.rt.eprint(line);
        }
    }

    fn part(&self, _worker: usize, _turn: u64) {}
}

impl<R: Clock + Eprint> Progress for Meter<'_, R> {
    fn begin(&self, extent: &Extent) {
        let _ = self.put(self.begun(extent));
    }

    fn end(&self) {
        if let Some(pacer) = self.put(None)
            && let Some(clear) = pacer.clearing()
        {
            let _ = self.rt.eprint(clear);
        }
    }
}
