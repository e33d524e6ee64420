//! Writing all that can be read of a log, also after damage.

ghost use Rattle.std.specs.Prelude.{MatchResult, Some, map};
ghost use Rattle.std.specs.Option.{option_map};
ghost use Rattle.wal_log.specs.Plan.{named as name_of};
ghost use Rattle.unpack_command.specs.Since.{seen_since};
ghost use Rattle.unpack_command.specs.RescueSteps.{RescuesInto};
ghost use Rattle.unpack_command.specs.Rescues.{Rescues, failing_rescue, rescue_ending_of};
ghost use Rattle.log_directory.specs.RescueSteps.{IsRescuedListed};
ghost use Rattle.log_directory.specs.Slots.{slot_value};

use crate::out::free_target;
use crate::rescue_writing::{SlotCheckpoint, SlotLog, write_rescued};
use answers::{Answer, Fault, UnpackRequest};
use log_directory::{Slot, checkpoint_slots, list_files, list_log, names_in, segment_slots};
use new_files::Target;
use std::alloc::Global;
use store::{Store, join};
use wal_log::Named;

// Writes all that can be read of the log in a directory with this newest checkpoint and with these segments.
fn rescue_with_checkpoint<S: Store>(
    alloc: Global,
    store: &mut S,
    dir: &str,
    target: &Target<'_>,
    newest: &Named<'_>,
    slots: &[Slot<'_>],
) -> Result<Answer, Fault>
    ensures { MatchResult result
        (λ answer. RescuesInto S.did store.old target.now.path (IsRescuedListed (seen_since S.did S.holds store.old) dir.now (Some (name_of newest.now)) (map slot_value slots.now)) (rescue_ending_of answer) store.new)
        (λ _. RescuesInto S.did store.old target.now.path (IsRescuedListed (seen_since S.did S.holds store.old) dir.now (Some (name_of newest.now)) (map slot_value slots.now)) failing_rescue store.new) }
{
    let path = join(alloc, dir, newest.name)?;
    let names = names_in(alloc, store, &path)?;
    let files = list_files(alloc, &names, None)?;
    let inner = checkpoint_slots(alloc, &files)?;
    let checkpoint = SlotCheckpoint {
        number: newest.number,
        dir: &path,
        slots: &inner,
    };
    let log = SlotLog {
        checkpoint: Some(checkpoint),
        dir,
        slots,
    };
    write_rescued(alloc, store, target, &log)
}

// Writes all that can be read of the log in a directory with this newest checkpoint, if there is one, and with these segments.
fn rescue_listed<S: Store>(
    alloc: Global,
    store: &mut S,
    dir: &str,
    target: &Target<'_>,
    newest: Option<Named<'_>>,
    slots: &[Slot<'_>],
) -> Result<Answer, Fault>
    ensures { MatchResult result
        (λ answer. RescuesInto S.did store.old target.now.path (IsRescuedListed (seen_since S.did S.holds store.old) dir.now (option_map name_of newest.entry) (map slot_value slots.now)) (rescue_ending_of answer) store.new)
        (λ _. RescuesInto S.did store.old target.now.path (IsRescuedListed (seen_since S.did S.holds store.old) dir.now (option_map name_of newest.entry) (map slot_value slots.now)) failing_rescue store.new) }
{
    match newest {
        Some(newest) => rescue_with_checkpoint(alloc, store, dir, target, &newest, slots),
        None => {
            let log = SlotLog {
                checkpoint: None,
                dir,
                slots,
            };
            write_rescued(alloc, store, target, &log)
        }
    }
}

/// Writes all that can be read of the log in the directory `dir` into a new folder at the path `out`, and reports what is lost.
pub(crate) fn rescue<S: Store>(
    alloc: Global,
    store: &mut S,
    request: &UnpackRequest<'_>,
) -> Result<Answer, Fault>
    ensures { MatchResult result
        (λ answer. Rescues S.did S.holds store.old request.now (rescue_ending_of answer) store.new)
        (λ _. Rescues S.did S.holds store.old request.now failing_rescue store.new) }
{
    let target = free_target(alloc, store, request.out)?;
    let names = names_in(alloc, store, request.dir)?;
    let listing = list_log(alloc, &names)?;
    let checkpoint = listing.checkpoint.map(|named| named.number);
    let slots = segment_slots(alloc, checkpoint, &listing.segments)?;
    rescue_listed(
        alloc,
        store,
        request.dir,
        &target,
        listing.checkpoint,
        &slots,
    )
}
