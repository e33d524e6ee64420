//! The text of an analysis.

use crate::bars::{push_figures, width_of};
use answers::{push_pair, push_spelled};
use head_ranks::{HeadTotals, LabelCount, NameCount, rank_by_samples, rank_by_series, rank_names};
use std::alloc::{AllocError, Global};

/// How the lists of an analysis are printed.
#[derive(Clone, Copy, Debug, PartialEq, Eq)]
pub(crate) struct Layout {
    /// The greatest number of lines of each list.
    pub(crate) most: usize,
    /// Whether each line has a bar that shows its share.
    pub(crate) bars: bool,
}

// What a list of labels shows.
#[derive(Clone, Copy, Debug, PartialEq, Eq)]
enum Figure {
    Series,
    Samples,
}

// A list of labels: the figure that it shows, the whole that each is a share of, and whether names are printed next to the values.
#[derive(Clone, Copy, Debug, PartialEq, Eq)]
struct Listing {
    figure: Figure,
    whole: u64,
    names: bool,
}

// Returns a figure of a label.
fn figure_of(label: &LabelCount<'_>, figure: Figure) -> u64 {
    match figure {
        Figure::Series => label.series,
        Figure::Samples => label.samples,
    }
}

// Returns the number of digits of the greatest figure of the labels.
fn width_of_labels(labels: &[LabelCount<'_>], figure: Figure) -> usize {
    let mut width = 1;
    for label in labels {
        width = width.max(width_of(figure_of(label, figure)));
    }
    width
}

// Appends the line of a label.
fn push_label(
    text: &mut String,
    label: &LabelCount<'_>,
    list: Listing,
    width: usize,
    bar: bool,
) -> Result<(), AllocError> {
    push_figures(text, figure_of(label, list.figure), list.whole, width, bar)?;
    if list.names {
        push_pair(text, label.name, label.value)?;
    } else {
        push_spelled(text, label.value)?;
    }
    text.push('\n')
}

// Appends the lines of the first labels.
fn push_labels(
    text: &mut String,
    labels: &[LabelCount<'_>],
    list: Listing,
    layout: Layout,
) -> Result<(), AllocError> {
    let shown = &labels[..labels.len().min(layout.most)];
    let width = width_of_labels(shown, list.figure);
    for label in shown {
        push_label(text, label, list, width, layout.bars)?;
    }
    Ok(())
}

// Returns the number of digits of the greatest number of values of the names.
fn width_of_names(names: &[NameCount<'_>]) -> usize {
    let mut width = 1;
    for name in names {
        width = width.max(width_of(name.values));
    }
    width
}

// Appends the line of a name.
fn push_name(
    text: &mut String,
    name: &NameCount<'_>,
    labels: u64,
    width: usize,
    bar: bool,
) -> Result<(), AllocError> {
    push_figures(text, name.values, labels, width, bar)?;
    push_spelled(text, name.name)?;
    text.push('\n')
}

// Appends the lines of the first names.
fn push_names(
    text: &mut String,
    names: &[NameCount<'_>],
    labels: u64,
    layout: Layout,
) -> Result<(), AllocError> {
    let shown = &names[..names.len().min(layout.most)];
    let width = width_of_names(shown);
    for name in shown {
        push_name(text, name, labels, width, layout.bars)?;
    }
    Ok(())
}

// Appends a line for each number.
fn push_numbers(
    text: &mut String,
    totals: &HeadTotals,
    metrics: usize,
    names: usize,
    labels: usize,
) -> Result<(), AllocError> {
    let HeadTotals { series, samples } = *totals;
    writeln!(text, "series {series}\nsamples {samples}")?;
    writeln!(text, "metrics {metrics}\nnames {names}\nlabels {labels}")
}

// Appends the lists of metrics.
fn push_metrics(
    text: &mut String,
    metrics: &mut [LabelCount<'_>],
    totals: &HeadTotals,
    layout: Layout,
) -> Result<(), AllocError> {
    rank_by_series(metrics);
    text.push_str("\nmetrics by series (share of series)\n")?;
    let list = Listing {
        figure: Figure::Series,
        whole: totals.series,
        names: false,
    };
    push_labels(text, metrics, list, layout)?;
    rank_by_samples(metrics);
    text.push_str("\nmetrics by samples (share of samples)\n")?;
    let list = Listing {
        figure: Figure::Samples,
        whole: totals.samples,
        names: false,
    };
    push_labels(text, metrics, list, layout)
}

/// Returns the text of an analysis: its numbers, and the lists of names, metrics and labels, those with the greatest figures first.
pub(crate) fn analysis_text(
    alloc: Global,
    totals: &HeadTotals,
    names: &mut [NameCount<'_>],
    metrics: &mut [LabelCount<'_>],
    labels: &mut [LabelCount<'_>],
    layout: Layout,
) -> Result<String, AllocError> {
    let mut text = String::new(alloc);
    push_numbers(&mut text, totals, metrics.len(), names.len(), labels.len())?;
    rank_names(names);
    text.push_str("\nlabel names by values (share of labels)\n")?;
    push_names(&mut text, names, labels.len() as u64, layout)?;
    push_metrics(&mut text, metrics, totals, layout)?;
    rank_by_series(labels);
    text.push_str("\nlabels by series (share of series)\n")?;
    let list = Listing {
        figure: Figure::Series,
        whole: totals.series,
        names: true,
    };
    push_labels(&mut text, labels, list, layout)?;
    Ok(text)
}
