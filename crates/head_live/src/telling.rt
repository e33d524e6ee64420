//! Rows and their verdicts, as an appender keeps them.

ghost use Rattle.std.specs.Prelude.{◌≡◌, ◌+◌, ◌≤◌, ◌++◌, IfOk, length, map, vec_capacity, vec_len};
ghost use Rattle.head_live.specs.Told.{accepted_count, answer_of, answers, row_told};

use crate::prepared::{Prepared, set_of};
use crate::told::Told;
use crate::verdict::Verdict;
use std::alloc::{AllocError, Global};

/// Copies rows into the form in which an appender keeps them. Each has the verdict `Stale` until `tell` sets it. Returns an error if out
/// of memory.
pub fn waiting(alloc: Global, rows: &Prepared) -> Result<Vec<Told>, AllocError>
    ensures { IfOk result (λ waiting. map row_told waiting.items ≡ rows.now.rows) }
{
    let sets = rows.sets.as_slice();
    let numbers = rows.in_use.numbers();
    let mut waiting = Vec::with_capacity(alloc, rows.rows.len())?;
    for row in &rows.rows {
        waiting.push(Told {
            labels: set_of(sets, numbers, row.set).clone()?,
            time: row.time,
            value: row.value,
            verdict: Verdict::Stale,
        })?;
    }
    Ok(waiting)
}

/// Moves rows to the end of `told`, each with its verdict. It allocates nothing.
pub fn tell(told: &mut Vec<Told>, waiting: Vec<Told>, said: &[Verdict])
    requires room { vec_len told.old + length waiting.items ≤ vec_capacity told.old }
    requires each { length said.now ≡ length waiting.items }
    ensures { map answer_of told.new.items ≡ map answer_of told.old.items ++ answers (map row_told waiting.items) said.now }
{
    for (row, verdict) in waiting.into_iter().zip(said) {
        told.push_reserved(Told {
            verdict: *verdict,
            ..row
        });
    }
}

/// Counts the accepted rows.
pub fn count_accepted(said: &[Verdict]) -> u64
    ensures { result ≡ accepted_count said.now }
{
    let mut count = 0;
    for place in 0..said.len() {
        if said[place] == Verdict::Accepted {
            count += 1;
        }
    }
    count
}
