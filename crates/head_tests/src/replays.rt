//! Whole logs, read into heads.

use crate::{one, same};
use head_core::{Head, HeadFault, Run, Slot};
use head_serial::{ReplayFault, Replayed, replay_serial};
use std::alloc::{AllocError, Global};
use std::process::Abort;
use wal_log::{Checkpoint, Damage, Input, Segment};
use wal_record::Items;

// Each constant is a fragment that holds one whole record. Its checksum was computed apart from this program. In the
// comments, s(1 a=x) is a series under the reference 1, v(1,1000,5) a sample of it at the time 1000 with the value 5, and
// t(1,5,9) a deletion of its times 5 to 9.
//
// The first line is the header: the part, 1 for a whole record, the record's length and its checksum. The second is the
// record's type. A series then has a line for its reference, and one for the number of its labels and their texts.
// Samples have a line for the base, which is the reference and the time of the first one, and each sample has one for
// its two differences from the base (doubled, less one where negative) and its value. Each deletion has a line for its
// reference and its two times, doubled.

// s(1 a=x)
const ONE_SERIES: &[u8] = b"\x01\0\x0e\x43\x8b\xb1\xbc\
    \x01\
    \0\0\0\0\0\0\0\x01\
    \x01\x01a\x01x";

// s(1 a=x) s(2 a=y)
const TWO_SERIES: &[u8] = b"\x01\0\x1b\x07\x9e\x99\x63\
    \x01\
    \0\0\0\0\0\0\0\x01\
    \x01\x01a\x01x\
    \0\0\0\0\0\0\0\x02\
    \x01\x01a\x01y";

// v(1,1000,1) v(1,2000,2) v(1,3000,3) v(2,1000,4)
const FIRST_SAMPLES: &[u8] = b"\x01\0\x3b\x84\x6c\x99\xbb\
    \x02\
    \0\0\0\0\0\0\0\x01\0\0\0\0\0\0\x03\xe8\
    \x00\x00\0\0\0\0\0\0\0\x01\
    \x00\xd0\x0f\0\0\0\0\0\0\0\x02\
    \x00\xa0\x1f\0\0\0\0\0\0\0\x03\
    \x02\x00\0\0\0\0\0\0\0\x04";

// t(1,1500,2500)
const FIRST_STONE: &[u8] = b"\x01\0\x0d\xd9\x6b\x47\x1f\
    \x03\
    \0\0\0\0\0\0\0\x01\xb8\x17\x88\x27";

// v(1,4000,5) v(1,1000,6) v(1,5000,7) v(2,1500,8)
const LATER_SAMPLES: &[u8] = b"\x01\0\x3c\xed\x93\xc5\xe6\
    \x02\
    \0\0\0\0\0\0\0\x01\0\0\0\0\0\0\x0f\xa0\
    \x00\x00\0\0\0\0\0\0\0\x05\
    \x00\xef\x2e\0\0\0\0\0\0\0\x06\
    \x00\xd0\x0f\0\0\0\0\0\0\0\x07\
    \x02\x87\x27\0\0\0\0\0\0\0\x08";

// t(1,2400,3000) t(1,4000,4000) t(2,20,19), of which the last has no times
const LATER_STONES: &[u8] = b"\x01\0\x23\x8c\x0c\x51\xf7\
    \x03\
    \0\0\0\0\0\0\0\x01\xc0\x25\xf0\x2e\
    \0\0\0\0\0\0\0\x01\xc0\x3e\xc0\x3e\
    \0\0\0\0\0\0\0\x02\x28\x26";

// A record of no bytes, and then a type that is none.
const DAMAGED: &[u8] = b"\x01\0\0\0\0\0\0\x06";

// The fragments of a checkpoint and of a segment, and what their replay shows.
#[derive(Drop)]
struct Case<'a> {
    checkpoint: &'a [&'a [u8]],
    segment: &'a [&'a [u8]],
    // slots, how many samples each has, and how many of them are in no hidden run
    samples: &'a [(u32, usize, usize)],
    skipped_records: u64,
    // the number of the damaged file, and the offset there
    damage: Option<(u64, u64)>,
}

// A list of one file, of these fragments.
fn files(alloc: Global, number: u64, fragments: &[&[u8]]) -> Result<Vec<Segment>, AllocError> {
    let mut bytes = Vec::new(alloc);
    for fragment in fragments {
        bytes.extend_from_slice(fragment)?;
    }
    let bytes = Items::from_vec(bytes);
    one(alloc, Segment { number, bytes })
}

// A log of the checkpoint 4 and the segment 5.
fn log(alloc: Global, case: &Case) -> Result<Option<Input>, AllocError> {
    let checkpoint = Checkpoint {
        number: 4,
        files: Items::from_vec(files(alloc, 0, case.checkpoint)?),
    };
    let segments = files(alloc, 5, case.segment)?;
    Ok(Input::new(Some(checkpoint), segments).ok())
}

fn is_hidden(hidden: &[Run], time: i64) -> bool {
    for run in hidden {
        if run.min_time <= time && time <= run.max_time {
            return true;
        }
    }
    false
}

// How many samples a series has, and how many of them are in no hidden run.
fn shown(head: &Head, slot: Slot) -> Result<(usize, usize), HeadFault> {
    if head.is_failed() || head.series() <= slot.index() {
        return Err(HeadFault::Failed);
    }
    let samples = head.samples(slot)?;
    let hidden = head.hidden(slot);
    let mut shown = 0usize;
    for sample in &samples {
        if !is_hidden(hidden, sample.time) {
            shown = shown.saturating_add(1);
        }
    }
    Ok((samples.len(), shown))
}

fn check_samples(
    rt: &impl Abort,
    head: &Head,
    samples: &[(u32, usize, usize)],
) -> Result<(), HeadFault> {
    if head.is_failed() {
        return Err(HeadFault::Failed);
    }
    same(rt, "series", head.all().len(), samples.len());
    for (slot, samples, seen) in samples {
        let slot = Slot::new(*slot);
        same(rt, slot, shown(head, slot)?, (*samples, *seen));
    }
    Ok(())
}

fn check_replayed(rt: &impl Abort, replayed: &Replayed, case: &Case) -> Result<(), ReplayFault> {
    let head = &replayed.head;
    if head.is_failed() {
        return Err(ReplayFault::Full);
    }
    check_samples(rt, head, case.samples)?;
    same(
        rt,
        "skipped",
        head.counts().skipped_records,
        case.skipped_records,
    );
    same(rt, "damage", place_of(&replayed.damage), case.damage);
    Ok(())
}

// The file of a damage, and its offset there.
fn place_of(damage: &Option<Damage>) -> Option<(u64, u64)> {
    match damage {
        Some(damage) => Some((damage.place.file, damage.place.offset)),
        None => None,
    }
}

fn check_input(
    rt: &impl Abort,
    alloc: Global,
    input: &Input,
    case: &Case,
) -> Result<(), ReplayFault> {
    let replayed = replay_serial(alloc, input)?;
    let outcome = check_replayed(rt, &replayed, case);
    drop(replayed);
    outcome
}

fn check(rt: &impl Abort, alloc: Global, case: &Case) -> Result<(), ReplayFault> {
    let Some(input) = log(alloc, case)? else {
        return Err(ReplayFault::Full);
    };
    let outcome = check_input(rt, alloc, &input, case);
    drop(input);
    outcome
}

const SMALL: Case = Case {
    checkpoint: &[ONE_SERIES],
    segment: &[DAMAGED],
    samples: &[(0, 0, 0)],
    skipped_records: 1,
    damage: Some((5, 7)),
};

// The first series has the samples at 1000 and 5000 in no hidden run; those at 2000 and 3000 are in the run from 1500 to
// 3000, and that at 4000 is in a run of its own. A second one at 1000 is stale. Both of the second series are in none.
const HIDDEN: Case = Case {
    checkpoint: &[TWO_SERIES, FIRST_SAMPLES, FIRST_STONE],
    segment: &[LATER_SAMPLES, LATER_STONES],
    samples: &[(0, 5, 2), (1, 2, 2)],
    skipped_records: 0,
    damage: None,
};

#[test]
fn whole_logs(rt: HostRuntime) -> Result<(), ReplayFault> {
    check(&rt, rt.alloc(), &SMALL)?;
    check(&rt, rt.alloc(), &HIDDEN)
}
