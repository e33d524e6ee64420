//! When a terminal shows how far a replay is.

ghost use Rattle.std.specs.Prelude.{◌≡◌, ◌↔◌, IfNone, IfSome, IsSome, IsTrue, OnSome, codes, is_some};
ghost use Rattle.progress.specs.Progress.{begun, is_due, line_at, told};

use crate::extent::Extent;
use crate::line::Line;

/// The least time between two lines, in milliseconds.
const PAUSE: u64 = 100;

/// Clears the line on a terminal.
const CLEAR: &str = "\r\x1b[K";

/// What a terminal has shown of a replay. It has no clock and writes nothing: each call takes the time and returns the text to write.
#[derive(Clone, Copy, Debug)]
pub struct Pacer {
    /// Whether there is a terminal.
    pub is_terminal: bool,
    pub extent: Extent,
    /// When the replay began, in milliseconds of the clock.
    pub began: u64,
    /// When the last line was returned, or else when the replay began.
    pub last: u64,
    /// Whether a line was returned.
    pub has_line: bool,
}

impl Pacer {
    /// Begins a replay of this extent at the millisecond `now`.
    pub fn new(is_terminal: bool, extent: Extent, now: u64) -> Pacer
        ensures { result ≡ begun is_terminal extent now }
    {
        Pacer {
            is_terminal,
            extent,
            began: now,
            last: now,
            has_line: false,
        }
    }

    /// Returns the line that is due at the beginning of the round `turn`, whose earlier rounds are done. Returns `None` if no line is due.
    pub fn line(&mut self, turn: u64, now: u64) -> Option<Line>
        ensures due { is_some result ≡ is_due self.old turn now }
        ensures line { IfSome result (λ line. line ≡ line_at self.old turn now) }
        ensures told { OnSome result (self.new ≡ told self.old now) }
        ensures quiet { IfNone result (self.new ≡ self.old) }
    {
        let is_early = now.saturating_sub(self.last) < PAUSE;
        if !self.is_terminal || turn == 0 || is_early {
            return None;
        }
        self.last = now;
        self.has_line = true;
        let all = self.extent.pages;
        Some(Line {
            extent: self.extent,
            done: turn.saturating_mul(self.extent.round_pages).min(all),
            taken: now.saturating_sub(self.began),
        })
    }

    /// Returns the text that clears the line at the end of the replay, or `None` if there was no line.
    pub fn clearing(&self) -> Option<&'static str>
        ensures line { IsSome result ↔ IsTrue self.now.has_line }
        ensures text { IfSome result (λ text. text.now ≡ codes "\r\u{1b}[K") }
    {
        if self.has_line { Some(CLEAR) } else { None }
    }
}
