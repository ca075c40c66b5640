//! What a test claims, as a call: where an assertion is written out, the proof of each test carries its formats along.
use std::fmt::{Debug, Display};
use std::process::Abort;

/// Ends the test, with a note, where what is found is not what is wanted.
macro_rules! assert_same {
    ($rt:expr; $found:expr, $wanted:expr $(,)?) => {
        crate::claims::end_unless_same(&$rt, $found, $wanted, stringify!($found))
    };
    ($rt:expr; $found:expr, $wanted:expr, $($note:tt)+) => {
        crate::claims::end_unless_same(&$rt, $found, $wanted, format_args!($($note)+))
    };
}

pub(crate) use assert_same;

/// The call that `assert_same` makes.
pub(crate) fn end_unless_same<T: PartialEq + Debug + Drop, D: Display + Drop>(
    rt: &impl Abort,
    found: T,
    wanted: T,
    note: D,
) {
    if found != wanted {
        panic!(rt; "{note}: {found:?} is not {wanted:?}")
    }
}
