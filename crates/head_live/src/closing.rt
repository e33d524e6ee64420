//! The end of a run of a shared head.

ghost use Rattle.std.specs.Prelude.{◌≡◌, ◌≢◌, ◌↔◌, ◌+◌, ◌<◌, ℕ, IfErr, IfOk, Some, length, true, vec_capacity};
ghost use Rattle.head_live.specs.Closing.{Closes, held_live, shares};

use crate::agreeing::agrees;
use crate::appender::Appender;
use crate::held::Held;
use crate::live::Live;
use crate::run::HeadRun;
use std::alloc::Global;
use std::io::Write;
use std::sync::ledger::{Book, Share};

/// The error of closing a run.
#[derive(Clone, Copy, Debug, PartialEq, Eq)]
pub enum CloseFault {
    /// An appender of the run is missing.
    Missing,
    /// The verdicts that the appenders have don't match the samples of the head.
    Differs,
    /// Out of memory.
    Memory,
}

/// A closed run: its live head, and the number of rows that were accepted.
#[derive(Drop)]
pub struct Closed<W: Write + Drop> {
    pub live: Live<W>,
    pub accepted: u64,
}

// A run that was not closed, and the error.
#[derive(Drop)]
pub(crate) struct HeldRefused<K: HeadRun, W: Write + Drop> {
    pub(crate) held: Held<K, W>,
    pub(crate) appenders: Vec<Appender<K>>,
    pub(crate) fault: CloseFault,
}

// Establishes, for the proof, that the book's total is the sum of all shares. Each appender's part is merged into the rest and split
// off again, so nothing changes.
fn audit_all<K: HeadRun>(
    book: &mut Book<K>,
    rest: &mut Share<K>,
    mut appenders: Vec<Appender<K>>,
) -> Vec<Appender<K>>
    requires some { 0 < rest.old.parts }
    requires all { rest.old.parts + length appenders.items ≡ K.parts }
    ensures whole { rest.old.amount + shares appenders.items ≡ book.old.total }
    ensures total { book.new.total ≡ book.old.total }
    ensures parts { rest.new.parts ≡ rest.old.parts }
    ensures amount { rest.new.amount ≡ rest.old.amount }
    ensures appenders { result.items ≡ appenders.items }
    ensures room { vec_capacity result ≡ vec_capacity appenders }
{
    let Some(appender) = appenders.pop() else {
        book.audit(rest);
        return appenders;
    };
    let Appender { part, share, told } = appender;
    rest.merge(part);
    let mut appenders = audit_all(book, rest, appenders);
    appenders.push_reserved(Appender {
        part: rest.split_off(1, share),
        share,
        told,
    });
    appenders
}

// Returns whether the total is known and equals this number.
fn is_total(total: Option<u64>, accepted: u64) -> bool
    ensures { (result ≡ true) ↔ (total ≡ Some accepted) }
{
    match total {
        Some(total) => total == accepted,
        None => false,
    }
}

// Returns everything with the error.
fn refuse<K: HeadRun, W: Write + Drop>(
    held: Held<K, W>,
    appenders: Vec<Appender<K>>,
    fault: CloseFault,
) -> HeldRefused<K, W>
    ensures held { result.held ≡ held }
    ensures appenders { result.appenders.items ≡ appenders.items }
    ensures fault { result.fault ≡ fault }
{
    HeldRefused {
        held,
        appenders,
        fault,
    }
}

/// Closes a run. It returns `Missing` if not all of its appenders are here, and otherwise `Differs` only if the run can't be closed:
/// the clause `closes` holds of no number of accepted rows.
pub(crate) fn close_held<K: HeadRun, W: Write + Drop>(
    alloc: Global,
    mut held: Held<K, W>,
    appenders: Vec<Appender<K>>,
) -> Result<Closed<W>, HeldRefused<K, W>>
    requires { K.parts ≡ 1025 }
    ensures closes { IfOk result (λ closed. Closes K.opening closed.live closed.accepted appenders.items) }
    ensures held { IfErr result (λ refused. refused.held ≡ held) }
    ensures appenders { IfErr result (λ refused. refused.appenders.items ≡ appenders.items) }
    ensures all { IfOk result (λ _. length appenders.items ≡ held.appenders) }
    ensures missing { IfErr result (λ refused. (refused.fault ≡ CloseFault.Missing) ↔ (length appenders.items ≢ held.appenders)) }
    ensures differs { IfErr result (λ refused. refused.fault ≡ CloseFault.Differs → (accepted : ℕ) → Closes K.opening (held_live held) accepted appenders.items → ⊥) }
{
    if appenders.len() as u64 != held.made {
        return Err(refuse(held, appenders, CloseFault::Missing));
    }
    let appenders = audit_all(&mut held.book, &mut held.rest, appenders);
    match agrees(alloc, held.live.head(), &held.opened, &appenders) {
        Ok(true) => {}
        Ok(false) => return Err(refuse(held, appenders, CloseFault::Differs)),
        Err(_) => return Err(refuse(held, appenders, CloseFault::Memory)),
    }
    let Some(accepted) = held.live.head().counts().accepted.checked_sub(held.before) else {
        return Err(refuse(held, appenders, CloseFault::Differs));
    };
    if !is_total(held.total, accepted) {
        return Err(refuse(held, appenders, CloseFault::Differs));
    }
    let Held {
        live,
        book: _,
        rest: _,
        made: _,
        opened: _,
        before: _,
        total: _,
    } = held;
    Ok(Closed { live, accepted })
}
