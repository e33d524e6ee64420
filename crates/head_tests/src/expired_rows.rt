//! Live heads that are truncated between appends.

use crate::appends::{Appends, NONE, open, push_call, push_left};
use crate::cases::{Case, check};
use crate::rows::Row;
use std::alloc::{AllocError, Global};

// What is done to a live head next.
#[derive(Clone, Copy)]
enum Step {
    Truncate(i64),
    Append(&'static [Row]),
}

// A live head, and what is done to it in order.
struct Truncated {
    opening: Appends,
    steps: &'static [Step],
}

impl Case for Truncated {
    fn text(&self, alloc: Global) -> Result<String, AllocError> {
        let mut text = String::new(alloc);
        let mut live = open(alloc, &self.opening)?;
        for step in self.steps {
            match *step {
                Step::Truncate(time) => match live.truncate(time) {
                    Ok(()) => text.push_str("T ")?,
                    Err(fault) => write!(text, "{fault:?} ")?,
                },
                Step::Append(rows) => push_call(&mut text, alloc, &mut live, rows)?,
            }
        }
        push_left(&mut text, alloc, live)?;
        Ok(text)
    }
}

const X: &[(&[u8], &[u8])] = &[(b"a", b"x")];

const Y: &[(&[u8], &[u8])] = &[(b"a", b"y")];

// An expired row takes no reference and is not logged. A lesser truncation changes nothing.
const EXPIRED: Truncated = Truncated {
    opening: NONE,
    steps: &[
        Step::Truncate(1000),
        Step::Append(&[(999, 1, X), (1000, 2, Y)]),
        Step::Truncate(500),
        Step::Append(&[(999, 3, Y)]),
    ],
};

// The device has no room, so the append fails, and the log with it.
const FAILED: Truncated = Truncated {
    opening: Appends { room: 0, ..NONE },
    steps: &[Step::Append(&[(5, 1, X)]), Step::Truncate(10)],
};

const TRUNCATED: &[(Truncated, &str)] = &[
    (
        EXPIRED,
        "T EA 55 T E 55 \
            01000EB1E032BF0100000000000000010101610179\
            01001BD2A7219602000000000000000100000000000003E800000000000000000002 \
            | 1 1 1 0 Some(2) Some(1000) 0; Some(1) a=y 1000:2 Some(1000)",
    ),
    (FAILED, "Write 0 Failed  | 0 0 0 0 Some(1) None 0"),
];

#[test]
fn expired_rows(rt: HostRuntime) {
    check(&rt, TRUNCATED);
}
