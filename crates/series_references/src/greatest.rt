//! The greatest reference.

ghost use Rattle.std.specs.Prelude.{◌≡◌};
ghost use Rattle.series_references.specs.Slots.{with_greatest};

/// Returns the greater of the greatest reference so far, if there is one, and one more reference.
pub fn with_reference(greatest: Option<u64>, reference: u64) -> Option<u64>
    ensures { result ≡ with_greatest greatest reference }
{
    match greatest {
        None => Some(reference),
        Some(greatest) => {
            if greatest < reference {
                Some(reference)
            } else {
                Some(greatest)
            }
        }
    }
}
