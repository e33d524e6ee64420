//! Reading a file of which not all can be read.

use crate::reason::Reason;
use crate::store::{PartRead, Unread};
use std::alloc::{AllocError, Global};
use std::fs::File;
use std::io;
use std::os::unix::fs::FileExt;

/// How many bytes are read at once of a file that cannot be read whole: as many as a page of a log has.
const PAGE_SIZE: u64 = 32 * 1024;

// Adds bytes that cannot be read: to the last ones, if these end where they begin.
fn add_unread(
    unread: &mut Vec<Unread>,
    offset: u64,
    bytes: u64,
    reason: Reason,
) -> Result<(), AllocError> {
    if let Some(last) = unread.last_mut() {
        if last.reason == reason && last.offset.checked_add(last.bytes) == Some(offset) {
            last.bytes = last.bytes.saturating_add(bytes);
            return Ok(());
        }
    }
    unread.push(Unread {
        offset,
        bytes,
        reason,
    })?;
    Ok(())
}

// Adds the bytes of a page, or as many zeros if it was not read.
fn add_page(
    part: &mut PartRead,
    offset: u64,
    page: &mut [u8],
    read: io::Result<()>,
) -> Result<(), AllocError> {
    if let Err(error) = read {
        page.fill(0);
        add_unread(
            &mut part.unread,
            offset,
            page.len() as u64,
            Reason::from(error),
        )?;
    }
    part.bytes.extend_from_slice(page)
}

// Reads a page of so many bytes, or adds zeros in its place.
fn read_page(
    alloc: Global,
    file: &File,
    offset: u64,
    size: u64,
    part: &mut PartRead,
) -> Result<(), AllocError> {
    let mut page = vec![in alloc; 0; size as usize]?;
    let read = file.read_exact_at(&mut page, offset);
    add_page(part, offset, &mut page, read)
}

/// Reads a file of this length page by page: a page that cannot be read is passed over. Returns an error if out of memory.
pub(crate) fn read_pages(alloc: Global, file: &File, length: u64) -> Result<PartRead, AllocError> {
    let mut part = PartRead::whole(alloc, Vec::new(alloc));
    let mut offset = 0;
    while offset < length {
        let size = (length - offset).min(PAGE_SIZE);
        read_page(alloc, file, offset, size, &mut part)?;
        offset += size;
    }
    Ok(part)
}
