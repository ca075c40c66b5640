//! How one reader asks the queries of a group in order, while the writer appends.

ghost use Rattle.std.specs.Prelude.{◌≡◌, ℕ, ◌+◌, ◌<◌, ◌^◌, ◌++◌, List, OnOk, length};
ghost use Rattle.live_collection.specs.Sides.{IsReaderOf, points_of};
ghost use Rattle.live_run.specs.Replies.{CanAsk, IsAskedText};
ghost use Rattle.live_run.specs.Dialogues.{AsksAll, CanAskAll, batches_seen};
ghost use Rattle.live_run.specs.Texts.{file_queries};

use crate::group::QueryFile;
use crate::text::push_query;
use live_collection::{LiveCollection, Reader};
use outside::NoMemory;
use series_core::Rows;
use std::alloc::Global;
use std::sync::Wait;

/// The answers to queries.
#[derive(Drop)]
pub struct Answers {
    /// Their text.
    pub text: Vec<u8>,
    /// The number of the next query.
    pub next: u64,
}

/// Asks the queries of all files, the first of which has this number. It may wait for the collection's lock.
pub fn answer_all<H: Wait>(
    rt: &H,
    alloc: Global,
    live: &LiveCollection,
    reader: &mut Reader,
    askings: &[QueryFile],
    first: u64,
) -> Result<Answers, NoMemory>
    requires { CanAskAll live.now reader.old askings.now first }
    ensures { AsksAll live.now reader.old reader.new askings.now first result }
{
    let mut text = Vec::new(alloc);
    let mut next = first;
    for file in askings {
        answer_file(rt, alloc, live, reader, file, next, &mut text)?;
        next += u64::from(file.queries.count());
    }
    Ok(Answers { text, next })
}

// Asks the queries of one file, of which the first has this number, and appends their text.
fn answer_file<H: Wait>(
    rt: &H,
    alloc: Global,
    live: &LiveCollection,
    reader: &mut Reader,
    file: &QueryFile,
    first: u64,
    text: &mut Vec<u8>,
) -> Result<(), NoMemory>
    requires reader { IsReaderOf live.now reader.old }
    requires askable { CanAsk (points_of live.now) file.now }
    requires numbers { first + length file.now.queries.series < 2 ^ 64 }
    ensures reader { IsReaderOf live.now reader.new × (reader.new.pass.number ≡ reader.old.pass.number) }
    ensures text { OnOk result ((more : List ℕ) × IsAskedText (points_of live.now) first (batches_seen reader.old)
        (file_queries file.now) more (batches_seen reader.new) × (text.new.items ≡ text.old.items ++ more)) }
{
    for i in 0..file.queries.count() {
        let query = file.queries.row(i);
        let reply = live.ask(rt, alloc, reader, query, file.k)?;
        push_query(text, first + u64::from(i), &reply)?;
    }
    Ok(())
}
