//! The text of one query, line by line. Fields are parted by one space, and each line ends with a line feed.

ghost use Rattle.std.specs.Prelude.{◌≡◌, ◌++◌, OnOk};
ghost use Rattle.live_run.specs.Texts.{query_line, query_text, answer_lines};

use live_collection::LiveReply;
use outside::NoMemory;
use run_traffic::{push_line, push_number};
use series_core::Pair;

/// Appends the text of query i: the line that tells how many series stood, and the lines of its answers.
pub fn push_query(text: &mut Vec<u8>, i: u64, reply: &LiveReply) -> Result<(), NoMemory>
    ensures { OnOk result (text.new.items ≡ text.old.items ++ query_text i reply.now.count reply.now.pairs) }
{
    push_head(text, i, reply.count)?;
    push_answers(text, &reply.pairs.items)
}

// Appends the line of query i, over `count` series.
fn push_head(text: &mut Vec<u8>, i: u64, count: u32) -> Result<(), NoMemory>
    ensures { OnOk result (text.new.items ≡ text.old.items ++ query_line i count) }
{
    text.extend_from_slice(b"query ")?;
    push_number(text, i)?;
    text.extend_from_slice(b" count ")?;
    push_line(text, u64::from(count), &[])
}

// Appends the lines of answers, from rank 1 on.
fn push_answers(text: &mut Vec<u8>, pairs: &[Pair]) -> Result<(), NoMemory>
    ensures { OnOk result (text.new.items ≡ text.old.items ++ answer_lines 1 pairs.now) }
{
    let mut rank = 1u64;
    for pair in pairs {
        push_line(text, rank, &[u64::from(pair.number), pair.distance])?;
        rank += 1;
    }
    Ok(())
}
