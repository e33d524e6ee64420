//! What the records of a log make, one after another: the head's resolver, and items dealt to workers.
//!
//! [`Building`] applies the records of pages on the calling thread. Or it binds the series of a *window*, the records of the next pages, ahead,
//! and notes what each reference named before; then each worker resolves the records of some pages and spreads their items, a list for
//! each worker of the deal. Either way it makes the same.
//!
//! The items go to the builders of series, each in its slot ([`Rounds`]). Workers apply them at the end of a *round*, or earlier if there are
//! many; or the calling thread does at once, where that takes no longer than to deal them. The builders end with the values that items
//! applied one after another give, whatever the number of workers and of rounds. A builder is a whole column, or a tally of one
//! ([`SeriesBuilder`]).
#![tactic(auto)]

mod applying;
mod at_once;
mod binding;
mod building;
mod counting;
mod fault;
mod rounds;
mod series_builder;
mod spreading;
mod window;

pub use binding::BoundPages;
pub use building::{Building, Built};
pub use fault::RoundFault;
pub use rounds::Rounds;
pub use series_builder::SeriesBuilder;
