//! Reading a log without damage, and replaying it to its head.

ghost use Rattle.std.specs.Prelude.{◌≡◌, false, IfOk, None, OnOk};
ghost use Rattle.wal_log.specs.Inputs.{Files};
ghost use Rattle.head_serial.specs.Replays.{IsReplayed, IsReplayedAt};
ghost use Rattle.log_directory.specs.Directory.{IsLogIn};
ghost use Rattle.log_directory.specs.Replays.{IsNextOf};
ghost use Rattle.log_directory.specs.Sources.{IsSourceIn, flaw_of_lost, lost_in};
ghost use Rattle.store.specs.Views.{view_of};
ghost use Rattle.answers.specs.Answers.{IsNoDamage};

use crate::kept::replay_form_at;
use crate::replaying::{FormReplay, replay_form};
use crate::source::{FileRead, Source, read_source};
use answers::{DamageLine, Fault, Flaw, LogForm};
use head_core::Head;
use head_replay::{Options, Run};
use progress::Progress;
use std::alloc::Global;
use std::sync::Wait;
use std::thread::Threads;
use store::{PartStore, Store};
use wal_log::Damage;

// Returns `Damage` if a log is damaged.
fn check_whole(damage: Option<Damage>) -> Result<(), Fault>
    ensures { OnOk result (damage ≡ None) }
{
    match damage {
        None => Ok(()),
        Some(damage) => Err(Fault::Damage(DamageLine(damage))),
    }
}

/// Replays the log in a directory to its head. Also returns the number of its next segment: one more than the last segment's, or else the
/// checkpoint's, or 0 if there is neither. It is `None` if that would be 2^64. The log is read as by [`replay_in`](crate::replay_in). Returns
/// `Damage` if it is damaged.
pub fn undamaged_head<R: Threads + Wait + Sync, S: PartStore + Sync, P: Progress + Sync>(
    rt: &R,
    alloc: Global,
    store: &S,
    progress: &P,
    dir: &str,
    options: &Options,
) -> Result<(Head, Option<u64>), Fault>
where
    S::Reader: Send,
    S::Writer: Send,
    ensures content { IfOk result (λ r. (log : Files) × IsLogIn (view_of (S.holds store.now)) dir.now log × IsReplayed log options.now.min_valid None r.0.content × IsNextOf log r.1) }
    ensures sound { IfOk result (λ r. r.0.failed ≡ false) }
{
    let replay = replay_form(rt, alloc, store, progress, dir, LogForm::Plain, options)?;
    let FormReplay { replayed, next, .. } = replay;
    check_whole(replayed.damage)?;
    Ok((replayed.head, next))
}

/// The head of all that can be read of a log, what is lost of the log, if parts are, and what was read of each file, in the order of the log.
#[derive(Drop)]
pub struct RescuedHead {
    pub head: Head,
    pub flaw: Option<Flaw>,
    pub files: Vec<FileRead>,
}

/// Replays all that can be read of the log in a directory to its head. It is read as by [`replay_in`](crate::replay_in).
pub fn rescued_head<R: Threads + Wait + Sync, S: PartStore + Sync, P: Progress + Sync>(
    rt: &R,
    alloc: Global,
    store: &S,
    progress: &P,
    dir: &str,
    options: &Options,
) -> Result<RescuedHead, Fault>
where
    S::Reader: Send,
    S::Writer: Send,
    ensures content { IfOk result (λ r. (log : Files) × IsSourceIn LogForm.PastDamage (view_of (S.holds store.now)) dir.now log r.flaw × IsReplayed log options.now.min_valid None r.head.content) }
    ensures lost { IfOk result (λ r. r.flaw ≡ flaw_of_lost (lost_in r.files.items)) }
    ensures sound { IfOk result (λ r. r.head.failed ≡ false) }
{
    let form = LogForm::PastDamage;
    let replay = replay_form(rt, alloc, store, progress, dir, form, options)?;
    let FormReplay {
        replayed,
        own,
        files,
        next: _,
    } = replay;
    check_whole(replayed.damage)?;
    Ok(RescuedHead {
        head: replayed.head,
        flaw: own,
        files,
    })
}

// Returns `Damage` if a log was read up to damage. One of which parts are lost is not refused.
fn check_undamaged(flaw: Option<Flaw>) -> Result<(), Fault>
    ensures { OnOk result (IsNoDamage flaw) }
{
    match flaw {
        Some(Flaw::Damage(damage)) => Err(Fault::Damage(DamageLine(damage))),
        _ => Ok(()),
    }
}

/// The head of a log without damage, and what is lost of the log, if parts are.
#[derive(Drop)]
pub struct UndamagedLog {
    pub head: Head,
    pub flaw: Option<Flaw>,
}

/// Reads the log in a directory in a form. Returns `Damage` if it was read up to damage. One of which parts are lost is not refused.
pub fn undamaged_source<S: Store>(
    alloc: Global,
    store: &S,
    dir: &str,
    form: LogForm,
) -> Result<Source, Fault>
    ensures source { IfOk result (λ source. IsSourceIn form (view_of (S.holds store.now)) dir.now source.log source.flaw) }
    ensures unhurt { IfOk result (λ source. IsNoDamage source.flaw) }
{
    let source = read_source(alloc, store, dir, form)?;
    check_undamaged(source.flaw)?;
    Ok(source)
}

/// Replays the log in a directory, in this form, to the head that keeps the samples of these times alone. All samples are judged and counted as if
/// all were kept. It is read as by [`replay_in`](crate::replay_in). Returns `Damage` if the log is damaged. One of which parts are lost is not
/// refused.
pub fn undamaged_at<R: Threads + Wait + Sync, S: PartStore + Sync, P: Progress + Sync>(
    rt: &R,
    alloc: Global,
    store: &S,
    progress: &P,
    dir: &str,
    form: LogForm,
    options: &Options,
    times: Run,
) -> Result<UndamagedLog, Fault>
where
    S::Reader: Send,
    S::Writer: Send,
    ensures content { IfOk result (λ r. (log : Files) × IsSourceIn form (view_of (S.holds store.now)) dir.now log r.flaw × IsReplayedAt times log options.now.min_valid None r.head.content) }
    ensures unhurt { IfOk result (λ r. IsNoDamage r.flaw) }
    ensures sound { IfOk result (λ r. r.head.failed ≡ false) }
{
    let (replayed, own) = replay_form_at(rt, alloc, store, progress, dir, form, options, times)?;
    check_undamaged(own)?;
    check_whole(replayed.damage)?;
    Ok(UndamagedLog {
        head: replayed.head,
        flaw: own,
    })
}
