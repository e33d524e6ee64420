//! Hours.

ghost use Rattle.std.specs.Prelude.{◌≡◌, ◌↔◌, ◌+ℤ◌, pos, IsTrue, IfSome, IfNone};
ghost use Rattle.head_column.specs.Hours.{hour_start, is_in_hour, HasTime, IsEdge};

use std::marker::Model;

/// The length of an hour in milliseconds.
pub const HOUR_LENGTH: i64 = 3_600_000;

// The hours of the least and the greatest `i64`. The least is inside its hour, so rounding toward zero gives the next one.
const FIRST: i64 = i64::MIN / HOUR_LENGTH - 1;

const LAST: i64 = i64::MAX / HOUR_LENGTH;

/// An hour: hour k is the times from k * 3600000 milliseconds up to (k + 1) * 3600000, exclusive. At least one of its times is an
/// `i64`. Contracts see it as the number k.
#[derive(Clone, Copy, Debug, PartialEq, Eq)]
pub struct Hour(i64);

impl Model for Hour {
    ghost use Rattle.std.specs.Prelude.{ℤ, pos, negsuc, ◌≤ℤ◌};

    ghost Value = { ℤ };

    ghost view = { λ h. h.0 };

    ghost inverse = { λ k. record { 0 = k } };

    ghost invariant = { λ h. (negsuc 2562047788015 ≤ℤ h.0) × (h.0 ≤ℤ pos 2562047788015) };
}

impl Hour {
    /// Returns the hour of a time in milliseconds: the time divided by 3600000, rounded down.
    pub fn of(time: i64) -> Hour
        ensures { IsTrue (is_in_hour result time) }
    {
        Hour(time.div_euclid(HOUR_LENGTH))
    }

    /// Returns hour k. `None` if none of its times is an `i64`.
    pub fn new(k: i64) -> Option<Hour>
        ensures some { IfSome result (λ hour. (hour ≡ k) × HasTime k) }
        ensures none { IfNone result (HasTime k → ⊥) }
    {
        if k < FIRST || LAST < k {
            return None;
        }
        Some(Hour(k))
    }

    /// Returns the hour's number. The clause `held` says that every `Hour` has a time that is an `i64`.
    pub fn k(self) -> i64
        ensures number { result ≡ self }
        ensures held { HasTime self }
    {
        self.0
    }

    /// Returns the time at which the hour begins, and that at which the next one does. Either may not be an `i64`.
    pub fn bounds(self) -> (i128, i128)
        ensures start { result.0 ≡ hour_start self }
        ensures end { result.1 ≡ hour_start (self +ℤ pos 1) }
    {
        let start = i128::from(self.k()) * i128::from(HOUR_LENGTH);
        (start, start + i128::from(HOUR_LENGTH))
    }

    /// Returns whether some of its times is not an `i64`, so that it begins before the least or ends past the greatest.
    pub fn is_edge(self) -> bool
        ensures { IsTrue result ↔ IsEdge self }
    {
        let k = self.k();
        k == FIRST || k == LAST
    }
}
