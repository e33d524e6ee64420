//! Parts that are not joined.

use crate::deals::dealt;
use crate::{or_memory, same};
use head_column::Tally;
use head_deal::{Deal, JoinFault, Part, join_parts, run_part};
use std::alloc::{AllocError, Global};
use std::process::Abort;

// How a part of a deal of the five items is made.
#[derive(Clone, Copy, Debug)]
struct Made {
    tag: u64,
    workers: usize,
    slots: usize,
    worker: usize,
    runs: bool,
}

fn make_part(alloc: Global, made: Made) -> Result<Part<Tally>, AllocError> {
    let deal: Deal<Tally> = dealt(alloc, made.tag, made.workers, made.slots)?;
    for mut part in or_memory(deal.into_parts())? {
        if part.worker() == made.worker {
            if made.runs {
                run_part(&mut part)?;
            }
            return Ok(part);
        }
    }
    Err(AllocError)
}

const FIRST: Made = Made {
    tag: 1,
    workers: 2,
    slots: 3,
    worker: 0,
    runs: true,
};

const SECOND: Made = Made { worker: 1, ..FIRST };

// Parts that are not joined, and why. The causes are in the order in which they are looked for.
const NOT_JOINED: &[(&[Made], JoinFault)] = &[
    (
        &[FIRST, FIRST, Made { tag: 2, ..SECOND }],
        JoinFault::Stranger,
    ),
    (
        &[
            FIRST,
            Made {
                workers: 3,
                ..SECOND
            },
        ],
        JoinFault::Stranger,
    ),
    (&[FIRST, Made { slots: 4, ..SECOND }], JoinFault::Stranger),
    (
        &[
            FIRST,
            Made {
                runs: false,
                ..FIRST
            },
        ],
        JoinFault::Doubled,
    ),
    (&[SECOND, FIRST, SECOND], JoinFault::Doubled),
    (&[], JoinFault::Missing),
    (
        &[Made {
            runs: false,
            ..FIRST
        }],
        JoinFault::Missing,
    ),
    (&[SECOND], JoinFault::Missing),
    (
        &[
            FIRST,
            Made {
                runs: false,
                ..SECOND
            },
        ],
        JoinFault::Unfinished,
    ),
    (
        &[
            SECOND,
            Made {
                runs: false,
                ..FIRST
            },
        ],
        JoinFault::Unfinished,
    ),
];

fn check_not_joined(
    rt: &impl Abort,
    alloc: Global,
    list: &[Made],
    fault: JoinFault,
) -> Result<(), AllocError> {
    let mut parts = Vec::new(alloc);
    for of in list {
        parts.push(make_part(alloc, *of)?)?;
    }
    match join_parts(alloc, parts) {
        Ok(_) => same(rt, list, None, Some(fault)),
        Err(refused) => {
            same(rt, list, refused.fault, fault);
            same(rt, list, refused.parts.len(), list.len());
        }
    }
    Ok(())
}

#[test]
fn parts_that_are_not_joined(rt: HostRuntime) -> Result<(), AllocError> {
    for (list, fault) in NOT_JOINED {
        check_not_joined(&rt, rt.alloc(), list, *fault)?;
    }
    Ok(())
}
