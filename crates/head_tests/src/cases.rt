//! Cases, and the texts that they are to give.

use std::alloc::{AllocError, Global};
use std::fmt::Debug;
use std::process::Abort;

// A call, or a few, with all that they take. What they give is a text.
pub(crate) trait Case {
    fn text(&self, alloc: Global) -> Result<String, AllocError>;
}

// The value as text.
pub(crate) fn shown<T: Debug + Drop>(alloc: Global, value: T) -> Result<String, AllocError> {
    format!(in alloc; "{value:?}")
}

// Ends the test where a case does not give the text beside it.
pub(crate) fn check<C: Case, R: Abort + AllocGlobal>(rt: &R, cases: &[(C, &str)]) {
    for (at, (case, wanted)) in cases.iter().enumerate() {
        let found = case.text(rt.alloc()).expect(rt, "memory");
        assert_eq!(rt; found.as_str(), *wanted, "case {at}");
    }
}
