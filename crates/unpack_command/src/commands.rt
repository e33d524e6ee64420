//! The command `unpack`.

ghost use Rattle.std.specs.Prelude.{◌≡◌, MatchResult, Some, false, map, true};
ghost use Rattle.std.specs.Option.{option_map};
ghost use Rattle.wal_log.specs.Plan.{named as name_of};
ghost use Rattle.unpack_command.specs.Folders.{Unpacks, ending_of, failing};
ghost use Rattle.log_directory.specs.Unpacked.{IsUnpackedPlan};
ghost use Rattle.unpack_command.specs.Since.{seen_since};
ghost use Rattle.unpack_command.specs.Rescues.{Rescues, rescue_ending_of};
ghost use Rattle.unpack_command.specs.Steps.{IsUnpackedFrom, UnpacksInto};

use crate::out::free_target;
use crate::past_damage::rescue;
use crate::planned::{PlannedCheckpoint, PlannedLog};
use crate::reading::find_damage;
use crate::report::damage_answer;
use crate::writing::write_log;
use answers::{Answer, Fault, UnpackRequest};
use log_directory::{names_in, plan_checkpoint, plan_log};
use new_files::Target;
use std::alloc::Global;
use store::{Store, join};
use wal_log::Named;

// Unpacks the planned files of a log into a new folder. If the log is damaged, it reports the damage alone, unless what is before the damage
// is wanted.
fn unpack_log<S: Store>(
    alloc: Global,
    store: &mut S,
    target: &Target<'_>,
    log: &PlannedLog<'_, '_, '_, '_>,
    through_damage: bool,
) -> Result<Answer, Fault>
    ensures { MatchResult result
        (λ answer. UnpacksInto S.did store.old target.now.path (IsUnpackedFrom (seen_since S.did S.holds store.old) log.now) through_damage (ending_of through_damage answer) store.new)
        (λ _. UnpacksInto S.did store.old target.now.path (IsUnpackedFrom (seen_since S.did S.holds store.old) log.now) through_damage failing store.new) }
{
    if !through_damage {
        let damage = find_damage(alloc, store, log)?;
        if let Some(damage) = damage {
            let answer = damage_answer(alloc, damage)?;
            return Ok(answer);
        }
    }
    write_log(alloc, store, target, log, through_damage)
}

// Unpacks the log in a directory with this newest checkpoint and with these segments.
fn unpack_with_checkpoint<S: Store>(
    alloc: Global,
    store: &mut S,
    request: &UnpackRequest<'_>,
    target: &Target<'_>,
    newest: &Named<'_>,
    segments: &[Named<'_>],
) -> Result<Answer, Fault>
    ensures { MatchResult result
        (λ answer. UnpacksInto S.did store.old target.now.path (IsUnpackedPlan (seen_since S.did S.holds store.old) request.now.dir.now (Some (name_of newest.now)) (map name_of segments.now)) request.now.through_damage (ending_of request.now.through_damage answer) store.new)
        (λ _. UnpacksInto S.did store.old target.now.path (IsUnpackedPlan (seen_since S.did S.holds store.old) request.now.dir.now (Some (name_of newest.now)) (map name_of segments.now)) request.now.through_damage failing store.new) }
{
    let dir = join(alloc, request.dir, newest.name)?;
    let names = names_in(alloc, store, &dir)?;
    let plan = plan_checkpoint(alloc, &names)?;
    let checkpoint = PlannedCheckpoint {
        number: newest.number,
        dir: &dir,
        names: &plan,
    };
    let log = PlannedLog {
        checkpoint: Some(checkpoint),
        dir: request.dir,
        segments,
    };
    unpack_log(alloc, store, target, &log, request.through_damage)
}

// Unpacks the log in a directory with this newest checkpoint, if there is one, and with these segments.
fn unpack_planned<S: Store>(
    alloc: Global,
    store: &mut S,
    request: &UnpackRequest<'_>,
    target: &Target<'_>,
    newest: Option<Named<'_>>,
    segments: &[Named<'_>],
) -> Result<Answer, Fault>
    ensures { MatchResult result
        (λ answer. UnpacksInto S.did store.old target.now.path (IsUnpackedPlan (seen_since S.did S.holds store.old) request.now.dir.now (option_map name_of newest.entry) (map name_of segments.now)) request.now.through_damage (ending_of request.now.through_damage answer) store.new)
        (λ _. UnpacksInto S.did store.old target.now.path (IsUnpackedPlan (seen_since S.did S.holds store.old) request.now.dir.now (option_map name_of newest.entry) (map name_of segments.now)) request.now.through_damage failing store.new) }
{
    match newest {
        Some(newest) => unpack_with_checkpoint(alloc, store, request, target, &newest, segments),
        None => {
            let log = PlannedLog {
                checkpoint: None,
                dir: request.dir,
                segments,
            };
            unpack_log(alloc, store, target, &log, request.through_damage)
        }
    }
}

// Unpacks the log in the directory `dir` into a new folder at the path `out`.
fn unpack<S: Store>(
    alloc: Global,
    store: &mut S,
    request: &UnpackRequest<'_>,
) -> Result<Answer, Fault>
    ensures { MatchResult result
        (λ answer. Unpacks S.did S.holds store.old request.now (ending_of request.now.through_damage answer) store.new)
        (λ _. Unpacks S.did S.holds store.old request.now failing store.new) }
{
    let target = free_target(alloc, store, request.out)?;
    let names = names_in(alloc, store, request.dir)?;
    let plan = plan_log(alloc, &names)?;
    let segments = plan.segments.as_slice();
    unpack_planned(alloc, store, request, &target, plan.checkpoint, segments)
}

// Carries out a request to unpack a log up to its first damage, or not at all.
fn carry_out_whole<S: Store>(alloc: Global, store: &mut S, request: &UnpackRequest<'_>) -> Answer
    ensures { Unpacks S.did S.holds store.old request.now (ending_of request.now.through_damage result) store.new }
{
    match unpack(alloc, store, request) {
        Ok(answer) => answer,
        Err(fault) => Answer::failed(alloc, fault),
    }
}

// Carries out a request to write all that can be read of a log.
fn carry_out_rescue<S: Store>(alloc: Global, store: &mut S, request: &UnpackRequest<'_>) -> Answer
    ensures { Rescues S.did S.holds store.old request.now (rescue_ending_of result) store.new }
{
    match rescue(alloc, store, request) {
        Ok(answer) => answer,
        Err(fault) => Answer::failed(alloc, fault),
    }
}

/// Carries out a request to unpack a log. Nothing is read or written if the name of `out` is that of a segment or of a checkpoint, which the
/// folder would be taken for next to a log. If the status is `Done`, each file of the log stands for records up to its end, and a new folder
/// at the path `out` has, under the number of each, the text of just these records. It is written in the order of `write_new_folder`: a crash
/// at any moment leaves at the path what was there, or the whole folder, and after status `Done` the whole folder; also after `Damaged`, if what
/// is before damage is wanted. The text to print is made before the folder is finished. Where a call fails the unfinished folder stays.
///
/// The files are unpacked and written one after another. In memory are the names of the files, and of one file its bytes and the text of its
/// records. Unless what is before damage is wanted, all files are read and unpacked once before anything is written, up to
/// the first damage, so the log is then read twice.
///
/// If all that can be read is wanted, nothing is read before it is written, and no damage, gap or file that cannot be read is a fault: what is
/// lost is reported, a line for each part. A missing segment is written as an empty one, after a checkpoint one at least, so that the folder has a
/// sound log.
///
/// All names are listed before anything is written. No contract of a store says that what it holds outlasts a write: each file of the folder
/// is the text of what the store held at some moment of the call. If a file changes between the two times that it is read, what it was the
/// second time is written; if it is damaged then, the call fails with the path of the file, and nothing is at `out` but what was there.
pub fn carry_out_unpack<S: Store>(
    alloc: Global,
    store: &mut S,
    request: UnpackRequest<'_>,
) -> Answer
    ensures unpacks { request.entry.past_damage ≡ false → Unpacks S.did S.holds store.old request.entry (ending_of request.entry.through_damage result) store.new }
    ensures rescues { request.entry.past_damage ≡ true → Rescues S.did S.holds store.old request.entry (rescue_ending_of result) store.new }
{
    if request.past_damage {
        carry_out_rescue(alloc, store, &request)
    } else {
        carry_out_whole(alloc, store, &request)
    }
}
