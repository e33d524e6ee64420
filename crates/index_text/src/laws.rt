//! Laws of the definitions.

ghost use Rattle.std.specs.Prelude.{◌<◌, ◌^◌, List, length};
ghost use Rattle.std.specs.List.{sum_by};
ghost use Rattle.index_text.specs.declared.row.IndexRow.{IndexRow};
ghost use Rattle.index_text.specs.Rows.{FitsIndex};

/// An index has fewer than 2^37 chunks: each chunk takes at least one byte, the offset of the last series has 36 bits, and its length has
/// 32 bits.
pub fn few_chunks()
    ensures { (rows : List IndexRow) → FitsIndex rows → sum_by (λ r. length r.chunks) rows < 2 ^ 37 }
{}
