//! The line that shows how far a replay is.

ghost use Rattle.std.specs.Prelude.{◌≡◌, Some};
ghost use Rattle.progress.specs.Progress.{bytes_done, line_text, seconds_left};

use crate::extent::Extent;
use std::fmt;
use wal_page::PAGE_SIZE;

const MEGABYTE: u64 = 1_000_000;

/// How far a replay is: what it has to do, the pages done, and the milliseconds that they took.
#[derive(Clone, Copy, Debug)]
pub struct Line {
    pub extent: Extent,
    pub done: u64,
    pub taken: u64,
}

impl Line {
    fn bytes_done(&self) -> u64
        ensures { result ≡ bytes_done self.now.extent.bytes self.now.done }
    {
        let all = self.extent.bytes;
        self.done.saturating_mul(PAGE_SIZE as u64).min(all)
    }

    fn seconds_left(&self) -> u128
        ensures { result ≡ seconds_left self.now.extent.pages self.now.done self.now.taken }
    {
        let left = self.extent.pages.saturating_sub(self.done);
        u128::from(self.taken) * u128::from(left) / u128::from(self.done.max(1)) / 1000
    }
}

impl fmt::Display for Line {
    ghost output = { λ line. Some (line_text line.extent.pages line.extent.bytes line.done line.taken) };

    fn fmt<W: fmt::Write>(&self, f: &mut fmt::Formatter<W>) -> fmt::Result {
        let (done, pages) = (self.done, self.extent.pages);
        let (megabytes, all) = (self.bytes_done() / MEGABYTE, self.extent.bytes / MEGABYTE);
        let left = self.seconds_left();
        let (minutes, tens, ones) = (left / 60, left % 60 / 10, left % 10);
        write!(
            f,
            "\r{done} of {pages} pages, {megabytes} of {all} MB, {minutes}:{tens}{ones} left\x1b[K"
        )
    }
}
