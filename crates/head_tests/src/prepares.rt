//! Rows that are prepared.

use crate::cases::{Case, check};
use crate::rows::{Row, prepared};
use head_live::PrepareFault;
use std::alloc::{AllocError, Global};

struct Rows(&'static [Row]);

impl Case for Rows {
    fn text(&self, alloc: Global) -> Result<String, AllocError> {
        match prepared(alloc, self.0) {
            Ok(rows) => format!(in alloc; "{}", rows.len()),
            Err(PrepareFault::Memory) => Err(AllocError),
            Err(fault) => format!(in alloc; "{fault:?}"),
        }
    }
}

const X: &[(&[u8], &[u8])] = &[(b"a", b"x")];

const BAD_ROWS: &[(Rows, &str)] = &[
    (Rows(&[]), "0"),
    (Rows(&[(1, 1, &[]), (2, 2, X), (3, 3, X)]), "3"),
    (
        Rows(&[
            (1, 1, X),
            (1, 1, &[(b"", b"x")]),
            (1, 1, &[(b"b", b""), (b"a", b"")]),
        ]),
        "Labels { row: 1, fault: EmptyName }",
    ),
    (
        Rows(&[(1, 1, &[(b"a", b"1"), (b"a", b"2"), (b"", b"")])]),
        "Labels { row: 0, fault: NotAscending }",
    ),
];

#[test]
fn bad_rows(rt: HostRuntime) {
    check(&rt, BAD_ROWS);
}
