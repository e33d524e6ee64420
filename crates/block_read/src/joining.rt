//! Joining the parts of rows.

ghost use Rattle.std.specs.Prelude.{◌≡◌, length, map, Err, IfOk};
ghost use Rattle.index_text.specs.declared.row.IndexRow.{IndexRow as Named};
ghost use Rattle.block_read.specs.declared.rows.BlockRow.{BlockRow as Row};
ghost use Rattle.block_read.specs.Blocks.{samples_of_rows};

use crate::fault::PartFault;
use crate::rows::BlockRow;
use block_index::IndexRow;
use head_column::{Run, Sample};
use hw_bytes::Items;
use std::alloc::Global;

// Makes rows of their labels, samples and hidden runs.
pub(crate) fn join_rows(
    alloc: Global,
    index: Vec<IndexRow>,
    samples: Vec<Items<Sample>>,
    hidden: Vec<Items<Run>>,
) -> Result<Vec<BlockRow>, PartFault>
    requires samples { length samples.items ≡ length index.items }
    requires hidden { length hidden.items ≡ length index.items }
    ensures labels { IfOk result (λ rows. map (λ (r : Row). r.labels) rows.items ≡ map (λ (r : Named). r.labels) index.items) }
    ensures samples { IfOk result (λ rows. samples_of_rows rows.items ≡ samples.items) }
    ensures hidden { IfOk result (λ rows. map (λ (r : Row). r.hidden) rows.items ≡ hidden.items) }
    ensures fault { result ≡ Err PartFault.Bad → ⊥ }
{
    let mut index = index;
    let mut samples = samples;
    let mut hidden = hidden;
    let mut rows = Vec::new(alloc);
    while let Some(row) = index.pop() {
        let Some(samples) = samples.pop() else {
            return Err(PartFault::Memory);
        };
        let Some(hidden) = hidden.pop() else {
            return Err(PartFault::Memory);
        };
        let IndexRow { labels, .. } = row;
        rows.push(BlockRow {
            labels,
            samples,
            hidden,
        })?;
    }
    rows.as_mut_slice().reverse();
    Ok(rows)
}
