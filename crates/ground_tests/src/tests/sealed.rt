//! Pops of sealed runs: by one pass, by a few in a random order, and in threads of their own.
mod calls;
mod plain;
mod threads;

use crate::claims::assert_same;
use sealed_runs::Runs;
use series_core::{Entry, PopReply};
use std::test::Fail;

#[test]
fn one_run_hands_out_its_least_entry_and_then_closes(rt: HostRuntime) -> Result<(), Fail> {
    let mut entries = Vec::new(rt.alloc());
    entries.push(Entry { bound: 5, leaf: 0 })?;
    entries.push(Entry { bound: 3, leaf: 2 })?;
    let Ok((runs, mut passes)) = Runs::seal(rt.alloc(), entries, 1, 1) else {
        return Err(Fail::new("no memory for one run"));
    };
    let Some(mut pass) = passes.pop() else {
        return Err(Fail::new("no pass for the one caller"));
    };
    let PopReply::Leaf(first) = runs.pop(&mut pass, 0, 4) else {
        return Err(Fail::new("no entry within the limit"));
    };
    assert_same!(rt; first, Entry { bound: 3, leaf: 2 }, "the least entry");
    let second = runs.pop(&mut pass, 0, 4);
    assert_same!(rt;
        second,
        PopReply::Closed(4),
        "the next entry is above the limit"
    );
    passes.push(pass)?;
    let closed = runs.close(passes);
    assert_same!(rt; closed.taken(0), [first].as_slice(), "taken");
    assert_same!(rt; closed.kept(0), Some(4), "kept");
    Ok(())
}
