//! What has how much of a head: the labels of its series with their series and samples, the label names with their values, and the ranks
//! of both.
//!
//! An operator sees by these counts which metrics and which labels make a head large. [`label_counts`] looks at each label of each series
//! once; all other counts and ranks are of its answer.
#![tactic(auto)]

mod counting;
mod counts;
mod naming;
mod ranking;

pub use counting::{label_counts, totals};
pub use counts::{HeadTotals, LabelCount, NameCount};
pub use naming::{metrics, name_counts};
pub use ranking::{rank_by_samples, rank_by_series, rank_names};
