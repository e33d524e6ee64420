//! The comparison of the answered rows of a run with the samples of its head.

ghost use Rattle.std.specs.Prelude.{◌≡◌, IfOk, false, true};
ghost use Rattle.head_core.specs.Content.{Content};
ghost use Rattle.head_live.specs.Agreeing.{Agrees, all_told};
ghost use Rattle.head_live.specs.Placing.{sample_counts};

use crate::appender::Appender;
use crate::placed::are_same;
use crate::placing::{new_samples, place_rows};
use crate::run::HeadRun;
use head_core::Head;
use std::alloc::{AllocError, Global};

/// Returns whether the accepted rows of all appenders are exactly the samples of the head past the opening, each once, the series of
/// each stale row has a sample at or past its time, and each expired row is before the least valid time. `opened` has the number of
/// samples of each slot at the opening.
pub(crate) fn agrees<K: HeadRun>(
    alloc: Global,
    head: &Head,
    opened: &[usize],
    appenders: &[Appender<K>],
) -> Result<bool, AllocError>
    requires { head.now.failed ≡ false }
    ensures same { IfOk result (λ same. same ≡ true → (opening : Content) → opened.now ≡ sample_counts opening → Agrees opening head.now.content (all_told appenders.now)) }
    ensures differ { IfOk result (λ same. same ≡ false → (opening : Content) → opened.now ≡ sample_counts opening → Agrees opening head.now.content (all_told appenders.now) → ⊥) }
{
    let mut accepted = Vec::new(alloc);
    for appender in appenders {
        if !place_rows(head, appender.told(), &mut accepted)? {
            return Ok(false);
        }
    }
    let new = new_samples(alloc, head, opened)?;
    Ok(are_same(accepted, &new))
}
