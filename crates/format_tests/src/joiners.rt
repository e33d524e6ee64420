//! Records taken from a joiner page by page.

use crate::cases::{Case, check, shown};
use crate::pages::{
    FIRST, FULL, LAST, ONE, PAGE, SPLIT_FIRST, SPLIT_LAST, Stretch, TWO, record, stretched,
};
use std::alloc::{AllocError, Global};
use wal_page::*;

// What `take` returns after each page of a file, and then `finish`: the number of records, the fault, and the first record.
struct PageByPage(&'static [Stretch]);

fn push_joined(text: &mut String, joined: &Joined<'_>) -> Result<(), AllocError> {
    let pieces = joined.pieces.as_slice();
    let first = record(pieces, 0);
    write!(text, "{} {:?} {first:?}, ", pieces.len(), joined.fault)?;
    Ok(())
}

fn pages_text(alloc: Global, bytes: &[u8]) -> Result<String, AllocError> {
    let mut text = String::new(alloc);
    let mut joiner = Joiner::new(alloc);
    let mut base = 0_u64;
    // a law, for the proof
    scan_fits();
    for page in bytes.chunks(PAGE_SIZE) {
        let Some(end) = base.checked_add(page.len() as u64) else {
            return Ok(text);
        };
        let scan = scan_page(alloc, page)?;
        joiner = joiner.push_page(base, &scan)?;
        base = end;
        push_joined(&mut text, &joiner.take())?;
    }
    push_joined(&mut text, &joiner.finish(base))?;
    Ok(text)
}

impl Case for PageByPage {
    fn text(&self, alloc: Global) -> Result<String, AllocError> {
        let bytes = stretched(alloc, self.0)?;
        pages_text(alloc, &bytes)
    }
}

const BY_PAGES: &[(PageByPage, &str)] = &[
    (PageByPage(&[]), "0 None None, "),
    // a record of two pages, and one of one byte on the second
    (
        PageByPage(&[FIRST, SPLIT_FIRST, LAST, SPLIT_LAST, FULL, ONE]),
        "0 None None, 2 None Some((0, false, 40000, [99, 0, 0])), 0 None None, ",
    ),
    // the second page begins with the rest of a record that none began
    (
        PageByPage(&[FULL, PAGE, LAST, SPLIT_LAST, FULL, ONE]),
        "1 None Some((0, true, 32761, [0, 0, 0])), 0 Some((32768, Sequence)) None, 0 Some((32768, Sequence)) None, ",
    ),
    // the record is not ended
    (
        PageByPage(&[FULL, ONE, FIRST, TWO]),
        "1 None Some((0, true, 1, [1])), 0 Some((16, Torn)) None, ",
    ),
];

#[test]
fn records_page_by_page(rt: HostRuntime) {
    check(&rt, BY_PAGES);
}

// What `take` and then `finish` return of a joiner of no pages.
struct NoPages;

impl Case for NoPages {
    fn text(&self, alloc: Global) -> Result<String, AllocError> {
        let mut joiner = Joiner::new(alloc);
        let taken = joiner.take();
        shown(alloc, (taken, joiner.finish(0)))
    }
}

#[test]
fn joiner_of_no_pages(rt: HostRuntime) {
    check(
        &rt,
        &[(
            NoPages,
            "(Joined { pieces: Items { items: [] }, fault: None }, Joined { pieces: Items { items: [] }, fault: None })",
        )],
    );
}
