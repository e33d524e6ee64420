//! Label sets as the keys of a map.

use std::alloc::Global;
use std::hash::{Hash, Hasher};
use std::sync::Arc;
use wal_record::LabelSet;

/// A label set as a key: the names and the values of its labels are hashed, in order.
#[derive(Debug, PartialEq, Eq, Drop)]
pub struct SetKey {
    // shared with heads that know it, and with the answered rows that appenders keep
    pub labels: Arc<LabelSet, Global>,
}

impl Hash for SetKey {
    ghost use Rattle.head_live.specs.Keys.{key_input, same_input};

    ghost hash_input = { key_input };

    ghost respects_eq = { same_input };

    fn hash<H: Hasher>(&self, state: &mut H) {
        for i in 0..self.labels.len() {
            let (name, value) = self.labels.pair(i);
            state.write(name);
            state.write(value);
        }
    }
}
