//! What `Head::reserve` makes for a list of records.

use head_column::Column;
use head_series::Ready;
use std::collections::VecDeque;
use std::marker::Model;

/// What applying a list of records needs besides room in the head: the memory of each binding, and the columns of the series that will
/// be new. `Head::reserve` returns it, and `Head::apply_reserved` takes it. Contracts see it as `ReservedValue`.
#[derive(Debug)]
pub struct Reserved {
    pub(crate) ready: VecDeque<Ready>,
    pub(crate) columns: VecDeque<Column>,
}

// Written out so that the proof of a function that drops these has one call, and not a copy of this.
impl Drop for Reserved {
    fn drop(self) {
        let Reserved {
            ready: _ready,
            columns: _columns,
        } = self;
    }
}

impl Model for Reserved {
    ghost use Rattle.head_core.specs.Room.{ReservedValue};

    ghost Value = { ReservedValue };

    ghost view = { λ r. record { ready = r.ready.items; columns = r.columns.items } };
}
