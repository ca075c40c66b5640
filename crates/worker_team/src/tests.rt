//! Teams in one thread: their workers are dismissed with what they made, and want of memory is reported where one made nothing.
mod row;

use super::*;
use claim_word::Claims;
use std::test::*;

#[test]
fn two_workers_are_dismissed_with_what_they_made(rt: HostRuntime) -> Result<(), Fail> {
    let Ok((claims, passes)) = Claims::begin(rt.alloc(), 3, 2) else {
        return Err(Fail::new("no memory for claims over 3 numbers"));
    };
    let Ok(mut team) = hire::<u64>(rt.alloc(), &claims, passes, &[5, 7, 9]) else {
        return Err(Fail::new("no memory for two workers"));
    };
    for worker in team.iter_mut() {
        worker.made = Some(worker.turn);
    }
    let Ok((_passes, made)) = dismiss(rt.alloc(), team) else {
        return Err(Fail::new("no memory for what two workers made"));
    };
    assert_eq!(rt;
        made.as_slice(),
        [5, 7].as_slice(),
        "what each made of its turns"
    );
    Ok(())
}

#[test]
fn a_worker_that_made_nothing_is_want_of_memory(rt: HostRuntime) -> Result<(), Fail> {
    let Ok((claims, passes)) = Claims::begin(rt.alloc(), 3, 2) else {
        return Err(Fail::new("no memory for claims over 3 numbers"));
    };
    let Ok(mut team) = hire::<u64>(rt.alloc(), &claims, passes, &[0; 64]) else {
        return Err(Fail::new("no memory for two workers"));
    };
    if let Some(first) = team.first_mut() {
        first.made = Some(1);
    }
    assert!(rt;
        dismiss(rt.alloc(), team).is_err(),
        "the second worker made nothing"
    );
    Ok(())
}
