//! What no clause says: the bytes of numbers and of lines, one behind the other.

use crate::{push_line, push_number};
use std::test::Fail;

#[test]
fn numbers_and_lines_stand_one_behind_the_other(rt: HostRuntime) -> Result<(), Fail> {
    let mut text = Vec::new(rt.alloc());
    push_number(&mut text, 0)?;
    push_line(&mut text, 7, &[])?;
    push_line(&mut text, 1, &[18446744073709551615, 0, 42])?;
    push_number(&mut text, 10)?;
    assert_eq!(rt;
        text.as_slice(),
        "07\n1 18446744073709551615 0 42\n10".as_bytes()
    );
    Ok(())
}
