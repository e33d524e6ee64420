//! Sorted lists of distinct texts and labels.

ghost use Rattle.std.specs.Prelude.{◌≡◌, map, IfOk};
ghost use Rattle.index_text.specs.Gives.{nows};
ghost use Rattle.index_text.specs.Lent.{row_label_of, compare_row_label};
ghost use Rattle.index_text.specs.Sets.{ascending, text_cmp};

/// A borrowed label. Labels are ordered by name, then by value.
#[derive(Clone, Copy, PartialEq, Eq, PartialOrd, Ord)]
pub(crate) struct LentLabel<'a> {
    pub(crate) name: &'a [u8],
    pub(crate) value: &'a [u8],
}

/// A borrowed label with the index of its row. They are ordered by label, then by row.
#[derive(Clone, Copy, Eq, PartialOrd, Ord)]
pub(crate) struct RowLabel<'a> {
    pub(crate) label: LentLabel<'a>,
    pub(crate) row: usize,
}

impl PartialEq for RowLabel<'_> {
    ghost use Rattle.std.specs.Prelude.{◌&&◌, nat_eq};
    ghost use Rattle.std.proofs.Common.{rules};
    ghost use Rattle.std.specs.Cmp.Rules.{comparing};
    ghost use Rattle.wal_record.specs.Labels.{same_label};
    ghost use Rattle.index_text.specs.Lent.{label_of};

    ghost eq = { λ a b. same_label (label_of a.label) (label_of b.label) && nat_eq a.row b.row };

    ghost laws = { Prim.search (comparing, rules) };

    // Rows differ more often than labels, and without a look at the texts.
    fn eq(&self, other: &Self) -> bool {
        self.row == other.row && self.label == other.label
    }
}

// Sorts texts and drops repeats.
pub(crate) fn distinct_texts<'a>(texts: Vec<&'a [u8]>) -> Vec<&'a [u8]>
    ensures { nows result.items ≡ ascending text_cmp (nows texts.entry.items) }
{
    let mut texts = texts;
    texts.sort_unstable();
    texts.dedup();
    texts
}

// Sorts the labels of rows and drops repeats.
pub(crate) fn sorted_row_labels<'a>(labels: Vec<RowLabel<'a>>) -> Vec<RowLabel<'a>>
    ensures { map row_label_of result.items ≡ ascending compare_row_label (map row_label_of labels.entry.items) }
{
    let mut labels = labels;
    labels.sort_unstable();
    labels.dedup();
    labels
}
