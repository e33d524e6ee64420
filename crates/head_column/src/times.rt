//! Comparing a time with the greatest accepted one.

ghost use Rattle.std.specs.Prelude.{◌≡◌};
ghost use Rattle.head_column.specs.Times.{reaches};

/// Returns whether there is a greatest time, and it is `time` or later.
pub fn reaches(latest: Option<i64>, time: i64) -> bool
    ensures { result ≡ reaches latest time }
{
    match latest {
        Some(latest) => time <= latest,
        None => false,
    }
}
