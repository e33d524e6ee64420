//! Sections with an element for each group of labels: a label index for each name, and postings for each label.

ghost use Rattle.std.specs.Prelude.{◌≡◌, ℕ, ◌+◌, ◌<◌, ◌≤◌, ◌++◌, ◌∷◌, [], ◌^◌, Bool, All, length, drop, map, IfOk, IsOk, OnOk, Err};
ghost use Rattle.std.specs.List.{zip};
ghost use Rattle.wal_record.specs.declared.labels.Label.{Label};
ghost use Rattle.wal_record.specs.Labels.{compare_label};
ghost use Rattle.index_text.specs.Gives.{nows};
ghost use Rattle.index_text.specs.Groups.{run_length as run_length_of};
ghost use Rattle.index_text.specs.Index.{everything, label_index_body, label_indices_of, names_in, postings_body, values_of};
ghost use Rattle.index_text.specs.Layout.{framed as framed_text, put_all, places};
ghost use Rattle.index_text.specs.Lent.{compare_row_label, label_of, name_place_of, label_place_of, row_label_of};
ghost use Rattle.index_text.specs.Posted.{ids_at, ids_of, labels_in, lists_of};
ghost use Rattle.index_text.specs.Rows.{AreSmall, IsSmall};
ghost use Rattle.index_text.specs.Sets.{IsAscending, text_cmp};

use crate::ordering::{LentLabel, RowLabel};
use crate::writer::{put_framed, rank_near};
use hw_bytes::{WriteFault, four_bytes_of, put_be32, put_padding};
use std::alloc::{AllocError, Global};

/// A name with the offset of its label index.
#[derive(Clone, Copy)]
pub(crate) struct NamePlace<'a> {
    pub(crate) name: &'a [u8],
    pub(crate) place: usize,
}

/// A label with the offset of its postings.
#[derive(Clone, Copy)]
pub(crate) struct LabelPlace<'a> {
    pub(crate) label: LentLabel<'a>,
    pub(crate) place: usize,
}

/// Elements that form groups.
trait Grouped {
    ghost is_with: { Self → Self → Bool };

    fn is_with(&self, other: &Self) -> bool
        ensures { result ≡ Self.is_with self.now other.now };
}

// labels with the same name
impl Grouped for LentLabel<'_> {
    ghost use Rattle.wal_record.specs.Labels.{same_text};

    ghost is_with = { λ a b. same_text a.name.now b.name.now };

    fn is_with(&self, other: &Self) -> bool {
        self.name == other.name
    }
}

// rows with the same label
impl Grouped for RowLabel<'_> {
    ghost use Rattle.wal_record.specs.Labels.{same_label};
    ghost use Rattle.index_text.specs.Lent.{label_of};

    ghost is_with = { λ a b. same_label (label_of a.label) (label_of b.label) };

    fn is_with(&self, other: &Self) -> bool {
        self.label == other.label
    }
}

// Returns the element at an index.
pub(crate) fn element_at<T: Copy>(elements: &[T], place: usize) -> T
    requires { place < length elements.now }
    ensures { drop place elements.now ≡ result ∷ drop (place + 1) elements.now }
{
    elements[place]
}

// Counts the first elements that belong to the group of `first`.
fn run_length<T: Grouped>(first: &T, elements: &[T]) -> usize
    ensures exact { result ≡ run_length_of (λ x. T.is_with x first.now) elements.now }
    ensures within { result ≤ length elements.now }
{
    for i in 0..elements.len() {
        if !elements[i].is_with(first) {
            return i;
        }
    }
    elements.len()
}

// Lists the distinct labels of the sorted labels of rows.
pub(crate) fn distinct_labels<'a>(
    alloc: Global,
    labels: &[RowLabel<'a>],
) -> Result<Vec<LentLabel<'a>>, AllocError>
    requires { IsAscending compare_row_label (map row_label_of labels.now) }
    ensures { IfOk result (λ distinct. map label_of distinct.items ≡ labels_in (map row_label_of labels.now)) }
{
    let mut distinct = Vec::new(alloc);
    let mut start = 0;
    while start < labels.len() {
        let first = element_at(labels, start);
        let (_, rest) = labels.split_at(start);
        distinct.push(first.label)?;
        start += run_length(&first, rest);
    }
    Ok(distinct)
}

// Appends the label index of the labels of one name. `body` is scratch space.
#[tactic(auto, unfolding(crate::specs::Index::label_index_body))]
fn put_label_index(
    out: &mut Vec<u8>,
    body: &mut Vec<u8>,
    table: &[&[u8]],
    labels: &[LentLabel<'_>],
) -> Result<(), WriteFault>
    requires ascending { IsAscending text_cmp (nows table.now) }
    requires small { length table.now < 2 ^ 32 }
    ensures text { OnOk result (out.new.items ≡ out.old.items ++ framed_text (label_index_body (nows table.now) (map (λ l. l.value.now) labels.now))) }
    ensures small { IsOk result → length (label_index_body (nows table.now) (map (λ l. l.value.now) labels.now)) < 2 ^ 32 }
    ensures large { result ≡ Err WriteFault.TooLarge → 2 ^ 32 ≤ length (label_index_body (nows table.now) (map (λ l. l.value.now) labels.now)) }
{
    body.clear();
    put_be32(body, 1)?;
    put_be32(body, four_bytes_of(labels.len())?)?;
    // values rise, so the next one is probably behind the last one
    let mut behind = 0;
    for label in labels {
        let rank = rank_near(table, label.value, behind);
        put_be32(body, rank as u32)?;
        behind = rank.saturating_add(1);
    }
    put_framed(out, body.as_slice())
}

// Appends a label index for each name of the labels, and returns their offsets.
pub(crate) fn put_label_indices<'a>(
    alloc: Global,
    out: &mut Vec<u8>,
    table: &[&[u8]],
    labels: &[LentLabel<'a>],
) -> Result<Vec<NamePlace<'a>>, WriteFault>
    requires ascending { IsAscending text_cmp (nows table.now) }
    requires small { length table.now < 2 ^ 32 }
    requires labels { IsAscending compare_label (map label_of labels.now) }
    ensures text { OnOk result (out.new.items ≡ put_all 4 out.old.items (label_indices_of (nows table.now) (map label_of labels.now))) }
    ensures named { IfOk result (λ named.
        map name_place_of named.items ≡ zip (names_in (map label_of labels.now)) (places 4 out.old.items (label_indices_of (nows table.now) (map label_of labels.now)))) }
    ensures small { IsOk result →
        AreSmall (λ name. length (label_index_body (nows table.now) (values_of (map label_of labels.now) name))) (names_in (map label_of labels.now)) }
    ensures large { result ≡ Err WriteFault.TooLarge →
        AreSmall (λ name. length (label_index_body (nows table.now) (values_of (map label_of labels.now) name))) (names_in (map label_of labels.now)) → ⊥ }
{
    let mut named = Vec::new(alloc);
    let mut body = Vec::new(alloc);
    let mut start = 0;
    while start < labels.len() {
        let first = element_at(labels, start);
        let (_, rest) = labels.split_at(start);
        let (run, _) = rest.split_at(run_length(&first, rest));
        put_padding(out, 4)?;
        named.push(NamePlace {
            name: first.name,
            place: out.len(),
        })?;
        put_label_index(out, &mut body, table, run)?;
        start += run.len();
    }
    Ok(named)
}

// Appends the postings with these ids. `body` is scratch space.
#[tactic(auto, unfolding(crate::specs::Index::postings_body))]
fn put_ids(out: &mut Vec<u8>, body: &mut Vec<u8>, ids: &[u32]) -> Result<(), WriteFault>
    ensures text { OnOk result (out.new.items ≡ out.old.items ++ framed_text (postings_body ids.now)) }
    ensures small { IsOk result → length (postings_body ids.now) < 2 ^ 32 }
    ensures large { result ≡ Err WriteFault.TooLarge → 2 ^ 32 ≤ length (postings_body ids.now) }
{
    body.clear();
    put_be32(body, four_bytes_of(ids.len())?)?;
    for id in ids {
        put_be32(body, *id)?;
    }
    put_framed(out, body.as_slice())
}

// Replaces `gathered` with the ids of the rows of these labels.
fn gather_ids(
    gathered: &mut Vec<u32>,
    ids: &[u32],
    labels: &[RowLabel<'_>],
) -> Result<(), AllocError>
    requires { All (λ l. l.row < length ids.now) labels.now }
    ensures { OnOk result (gathered.new.items ≡ ids_at ids.now (map row_label_of labels.now)) }
{
    gathered.clear();
    for label in labels {
        gathered.push(ids[label.row])?;
    }
    Ok(())
}

// Appends the postings of each label, and adds their offsets to `listed`.
fn put_lists<'a>(
    alloc: Global,
    out: &mut Vec<u8>,
    ids: &[u32],
    labels: &[RowLabel<'a>],
    listed: &mut Vec<LabelPlace<'a>>,
) -> Result<(), WriteFault>
    requires within { All (λ l. l.row < length ids.now) labels.now }
    requires ascending { IsAscending compare_row_label (map row_label_of labels.now) }
    ensures text { OnOk result (out.new.items ≡ put_all 4 out.old.items (lists_of ids.now (map row_label_of labels.now))) }
    ensures listed { OnOk result (map label_place_of listed.new.items ≡ map label_place_of listed.old.items
        ++ zip (labels_in (map row_label_of labels.now)) (places 4 out.old.items (lists_of ids.now (map row_label_of labels.now)))) }
    ensures small { IsOk result → AreSmall (λ p. length (postings_body (ids_of ids.now (map row_label_of labels.now) p))) (labels_in (map row_label_of labels.now)) }
    ensures large { result ≡ Err WriteFault.TooLarge → AreSmall (λ p. length (postings_body (ids_of ids.now (map row_label_of labels.now) p))) (labels_in (map row_label_of labels.now)) → ⊥ }
{
    let mut body = Vec::new(alloc);
    let mut gathered = Vec::new(alloc);
    let mut start = 0;
    while start < labels.len() {
        let first = element_at(labels, start);
        let (_, rest) = labels.split_at(start);
        let (run, _) = rest.split_at(run_length(&first, rest));
        put_padding(out, 4)?;
        listed.push(LabelPlace {
            label: first.label,
            place: out.len(),
        })?;
        gather_ids(&mut gathered, ids, run)?;
        put_ids(out, &mut body, gathered.as_slice())?;
        start += run.len();
    }
    Ok(())
}

// Appends the postings of all series and then those of each label, and returns their offsets.
pub(crate) fn put_postings<'a>(
    alloc: Global,
    out: &mut Vec<u8>,
    ids: &[u32],
    labels: &[RowLabel<'a>],
) -> Result<Vec<LabelPlace<'a>>, WriteFault>
    requires within { All (λ l. l.row < length ids.now) labels.now }
    requires ascending { IsAscending compare_row_label (map row_label_of labels.now) }
    ensures text { OnOk result (out.new.items ≡ put_all 4 out.old.items (framed_text (postings_body ids.now) ∷ lists_of ids.now (map row_label_of labels.now))) }
    ensures listed { IfOk result (λ listed. map label_place_of listed.items ≡
        zip (everything ∷ labels_in (map row_label_of labels.now))
        (places 4 out.old.items (framed_text (postings_body ids.now) ∷ lists_of ids.now (map row_label_of labels.now)))) }
    ensures small { IsOk result → IsSmall (length (postings_body ids.now)) }
    ensures each_small { IsOk result → AreSmall (λ p. length (postings_body (ids_of ids.now (map row_label_of labels.now) p))) (labels_in (map row_label_of labels.now)) }
    ensures large { result ≡ Err WriteFault.TooLarge → IsSmall (length (postings_body ids.now))
        → AreSmall (λ p. length (postings_body (ids_of ids.now (map row_label_of labels.now) p))) (labels_in (map row_label_of labels.now)) → ⊥ }
{
    let mut listed = Vec::new(alloc);
    let mut body = Vec::new(alloc);
    put_padding(out, 4)?;
    listed.push(LabelPlace {
        label: LentLabel {
            name: &[],
            value: &[],
        },
        place: out.len(),
    })?;
    put_ids(out, &mut body, ids)?;
    put_lists(alloc, out, ids, labels, &mut listed)?;
    Ok(listed)
}
