//! What a deal is made of, before its builders are put in.

ghost use Rattle.std.specs.Prelude.{◌≡◌, ℕ, ◌+◌, ◌*◌, ◌^◌, ◌<◌, ◌≤◌, [], length, min, IfOk, slice_index_or, vec_capacity};
ghost use Rattle.head_deal.specs.Holding.{AreSeats};

use crate::Builder;
use crate::parts::Part;
use crate::seats::{MOST_SEATS, Seat, make_seats};
use crate::spread::make_rows;
use crate::workers::Workers;
use std::alloc::{AllocError, Global};

/// Returns the seats of the slots whose numbers fit in a `u32`, and a list with room for one part.
pub(crate) fn prepare_alone<B: Builder>(
    alloc: Global,
    one: Workers,
    slots: usize,
) -> Result<(Vec<Seat>, Vec<Part<B>>), AllocError>
    ensures seats { IfOk result (λ r. AreSeats one.number r.0.items × (length r.0.items ≡ min slots (2 ^ 32))) }
    ensures parts { IfOk result (λ r. (r.1.items ≡ []) × (1 ≤ vec_capacity r.1)) }
{
    let seats = make_seats(alloc, one, slots.min(MOST_SEATS))?;
    let parts = Vec::with_capacity(alloc, 1)?;
    Ok((seats, parts))
}

/// Returns the seats of the slots whose numbers fit in a `u32`, for each worker an empty row with room for its builders, and a list with
/// room for the parts.
pub(crate) fn prepare<B: Builder>(
    alloc: Global,
    workers: Workers,
    slots: usize,
) -> Result<(Vec<Seat>, Vec<Vec<B>>, Vec<Part<B>>), AllocError>
    requires small { slots + workers.number < 2 ^ 64 }
    ensures seats { IfOk result (λ r. AreSeats workers.number r.0.items × (length r.0.items ≡ min slots (2 ^ 32))) }
    ensures rows { IfOk result (λ r. (length r.1.items ≡ workers.number) ×
        ((k : ℕ) (d : _) → k < workers.number → ((slice_index_or r.1.items k d).items ≡ []) × (slots ≤ vec_capacity (slice_index_or r.1.items k d) * workers.number))) }
    ensures parts { IfOk result (λ r. (r.2.items ≡ []) × (workers.number ≤ vec_capacity r.2)) }
{
    let number = workers.number;
    let seats = make_seats(alloc, workers, slots.min(MOST_SEATS))?;
    let rows = make_rows(alloc, number, slots / number + 1)?;
    let parts = Vec::with_capacity(alloc, number)?;
    Ok((seats, rows, parts))
}
