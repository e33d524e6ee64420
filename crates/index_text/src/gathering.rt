//! Lists of the labels and the texts of rows.

ghost use Rattle.std.specs.Prelude.{◌≡◌, ◌++◌, ◌∷◌, [], map, IfOk, OnOk};
ghost use Rattle.std.specs.List.{flat_map};
ghost use Rattle.wal_record.specs.declared.labels.Label.{Label};
ghost use Rattle.index_text.specs.Gives.{nows};
ghost use Rattle.index_text.specs.Index.{labels_from};
ghost use Rattle.index_text.specs.Lent.{label_of, row_label_of};

use crate::ordering::{LentLabel, RowLabel};
use crate::row::IndexRow;
use std::alloc::{AllocError, Global};

// Appends the labels of a row, each with the index of the row.
fn push_row_labels<'a>(
    labels: &mut Vec<RowLabel<'a>>,
    row: &'a IndexRow,
    place: usize,
) -> Result<(), AllocError>
    ensures { OnOk result (map row_label_of labels.new.items ≡ map row_label_of labels.old.items ++ map (λ (l : Label). (l, place)) row.now.labels) }
{
    for i in 0..row.labels.len() {
        let (name, value) = row.labels.pair(i);
        let label = LentLabel { name, value };
        labels.push(RowLabel { label, row: place })?;
    }
    Ok(())
}

// Counts the labels of rows.
fn count_labels(rows: &[IndexRow]) -> usize {
    let mut count: usize = 0;
    for row in rows {
        count = count.saturating_add(row.labels.len());
    }
    count
}

// Lists the labels of rows, each with the index of its row.
pub(crate) fn row_labels(alloc: Global, rows: &[IndexRow]) -> Result<Vec<RowLabel<'_>>, AllocError>
    ensures { IfOk result (λ labels. map row_label_of labels.items ≡ labels_from 0 rows.now) }
{
    let mut labels = Vec::with_capacity(alloc, count_labels(rows))?;
    for place in 0..rows.len() {
        push_row_labels(&mut labels, &rows[place], place)?;
    }
    Ok(labels)
}

// Lists the names of labels.
pub(crate) fn names_of<'a>(
    alloc: Global,
    labels: &[LentLabel<'a>],
) -> Result<Vec<&'a [u8]>, AllocError>
    ensures { IfOk result (λ names. nows names.items ≡ map (λ (l : Label). l.name) (map label_of labels.now)) }
{
    let mut names = Vec::with_capacity(alloc, labels.len())?;
    for label in labels {
        names.push(label.name)?;
    }
    Ok(names)
}

// Lists the names and the values of labels.
pub(crate) fn texts_of<'a>(
    alloc: Global,
    labels: &[LentLabel<'a>],
) -> Result<Vec<&'a [u8]>, AllocError>
    ensures { IfOk result (λ texts. nows texts.items ≡ flat_map (λ (l : Label). l.name ∷ l.value ∷ []) (map label_of labels.now)) }
{
    let mut texts = Vec::new(alloc);
    for label in labels {
        texts.push(label.name)?;
        texts.push(label.value)?;
    }
    Ok(texts)
}
