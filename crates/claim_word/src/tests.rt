//! Draws in one thread, and in threads of their own. One pass over 3 numbers draws 0, 1 and 2, and then ends.
mod threads;

use super::*;
use std::test::*;

#[test]
fn one_pass_draws_each_number_and_ends(rt: HostRuntime) -> Result<(), Fail> {
    let Ok((claims, mut passes)) = Claims::begin(rt.alloc(), 3, 1) else {
        return Err(Fail::new("no memory for claims over 3 numbers"));
    };
    let Some(mut pass) = passes.pop() else {
        return Err(Fail::new("no pass for the one caller"));
    };
    let Some(first) = claims.draw(&mut pass) else {
        return Err(Fail::new("no first number"));
    };
    let Some(second) = claims.draw(&mut pass) else {
        return Err(Fail::new("no second number"));
    };
    let Some(third) = claims.draw(&mut pass) else {
        return Err(Fail::new("no third number"));
    };
    let fourth = claims.draw(&mut pass);
    assert_eq!(rt;
        (first, second, third, fourth),
        (0, 1, 2, None),
        "draws over 3 numbers"
    );
    passes.push(pass)?;
    claims.close(passes);
    Ok(())
}
