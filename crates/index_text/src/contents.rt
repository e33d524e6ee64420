//! The labels and the symbols of rows.

ghost use Rattle.std.specs.Prelude.{◌≡◌, ◌<◌, All, length, map, IfOk};
ghost use Rattle.index_text.specs.Gives.{nows};
ghost use Rattle.index_text.specs.Index.{labels_from, pairs as pairs_of, symbols as symbols_of};
ghost use Rattle.index_text.specs.Lent.{compare_row_label, label_of, row_label_of};
ghost use Rattle.index_text.specs.Sets.{ascending};

use crate::arranging::arrange;
use crate::gathering::{row_labels, texts_of};
use crate::groups::distinct_labels;
use crate::numbering::{LabelPlaces, label_places};
use crate::ordering::{LentLabel, RowLabel, distinct_texts, sorted_row_labels};
use crate::row::IndexRow;
use std::alloc::{AllocError, Global};

/// The labels of rows and their texts, borrowed from the rows. Each list is sorted.
pub(crate) struct Contents<'a> {
    /// Each label of each row, with the index of the row.
    pub(crate) labels: Vec<RowLabel<'a>>,
    /// The distinct labels.
    pub(crate) pairs: Vec<LentLabel<'a>>,
    /// The distinct names and values.
    pub(crate) symbols: Vec<&'a [u8]>,
    /// The probable places of the labels among the symbols, row by row.
    pub(crate) places: LabelPlaces,
}

// Written by hand instead of derived: the proof of a function that drops these lists then has one call instead of a copy of this body.
impl Drop for Contents<'_> {
    fn drop(self) {
        let Contents {
            labels: _labels,
            pairs: _pairs,
            symbols: _symbols,
            places: _places,
        } = self;
    }
}

// Collects the labels and the symbols of rows.
pub(crate) fn contents_of(alloc: Global, rows: &[IndexRow]) -> Result<Contents<'_>, AllocError>
    ensures labels { IfOk result (λ contents. map row_label_of contents.labels.items ≡ ascending compare_row_label (labels_from 0 rows.now)) }
    ensures within { IfOk result (λ contents. All (λ l. l.row < length rows.now) contents.labels.items) }
    ensures pairs { IfOk result (λ contents. map label_of contents.pairs.items ≡ pairs_of rows.now) }
    ensures symbols { IfOk result (λ contents. nows contents.symbols.items ≡ symbols_of rows.now) }
{
    let mut labels = row_labels(alloc, rows)?;
    let places = label_places(alloc, labels.as_slice())?;
    arrange(alloc, &mut labels, &places)?;
    let labels = sorted_row_labels(labels);
    let pairs = distinct_labels(alloc, labels.as_slice())?;
    let symbols = distinct_texts(texts_of(alloc, pairs.as_slice())?);
    Ok(Contents {
        labels,
        pairs,
        symbols,
        places,
    })
}
