//! A number of workers.

ghost use Rattle.std.specs.Prelude.{◌≡◌, ◌<◌, ◌≤◌, ◌⊎◌, IfNone, IfSome};

/// A number of workers, 1 to 64.
#[derive(Clone, Copy)]
pub struct Workers {
    /// The number.
    pub number: usize,
    ghost some: { 0 < number },
    ghost most: { number ≤ 64 },
}

impl Workers {
    /// Returns this number of workers, or `None` if it is 0 or more than 64.
    pub fn new(number: usize) -> Option<Workers>
        ensures some { IfSome result (λ workers. workers.number ≡ number) }
        ensures none { IfNone result ((number ≡ 0) ⊎ (64 < number)) }
    {
        if number == 0 || number > 64 {
            return None;
        }
        Some(Workers { number })
    }
}
