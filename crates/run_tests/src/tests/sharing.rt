//! Two workers over noise that is great enough to be shared: for one query both draw of its stretches, and for two each answers one. They
//! run at once, and write what a plain sort finds.

use crate::claims::assert_same;
use crate::tests::drawn_files::{plain_text, raw};
use crate::tests::fixture::{Meeting, Outside, words_of};
use outside::NoMemory;
use plain_search::Source;
use search_run::{Status, run};
use series_core::Flat;
use std::alloc::Global;
use std::test::*;

/// How many values a series has.
const LENGTH: u32 = 2048;

/// How many series there are: together they have two million values and more, which pays for threads.
const SERIES: u32 = 1024;

/// Values for so many series, at most two of them or all.
fn noise(alloc: Global, seed: u64, series: u32) -> Result<Flat, NoMemory> {
    let mut source = Source::new(seed, 20000);
    let values = source.values(alloc, series.min(SERIES) * LENGTH)?;
    Ok(Flat::from_values(LENGTH, values))
}

#[test]
fn two_workers_meet_over_one_query_and_over_two(rt: HostRuntime) -> Result<(), Fail> {
    let alloc = rt.alloc();
    let rows = noise(alloc, 1, SERIES)?;
    for count in [1, 2] {
        let queries = noise(alloc, 2, count)?;
        let outside = Outside::sound(65536);
        let mut files = outside.files(alloc)?;
        files.hold("noise", &raw(alloc, &rows)?)?;
        files.hold("asked", &raw(alloc, &queries)?)?;
        let (mut out, mut err) = outside.sinks(alloc)?;
        let words = words_of(alloc, "nearest noise asked --raw 2048 --workers 2 --k 3")?;
        let gate = Meeting::new();
        let status = run(&rt, alloc, &words, &mut files, &mut out, &mut err, &gate);
        assert_same!(rt; status, Status::Done, "{count} queries");
        let text = plain_text(alloc, &rows, &queries, 3)?;
        assert_same!(rt; out.written(), text.as_slice(), "{count} queries");
        assert_same!(rt;
            gate.counts(),
            (2, 2, 0),
            "{count} queries: nobody waits in vain"
        );
    }
    Ok(())
}
