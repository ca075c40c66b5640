//! The pieces of a text, one a query, one after another: each is made whole and then written.
//! A piece is written only once all of it stands in memory, so what is written is a prefix of the pieces made.

ghost use Rattle.std.specs.Prelude.{◌≡◌, ℕ, ◌<◌, ◌≤◌, List, length, OnOk, IfErr};
ghost use Rattle.std.specs.Io.KnownBytes.{append_known};
ghost use Rattle.search_run.specs.Stops.{Stops};
ghost use Rattle.search_run.specs.Texts.{IsMade, IsTextOf};
ghost use Rattle.search_run.specs.Traffic.{wrote_to};

use crate::row::row_of;
use crate::status::Status;
use outside::{NoMemory, Sink, write_whole};
use series_core::Rows;

/// Writes for each query the piece that is made for it, by its number, in this context.
pub fn write_pieces<C, Q: Rows, S: Sink, P: Fn(&C, u32, &[i16]) -> Result<Vec<u8>, NoMemory>>(
    context: &C,
    piece_of: &P,
    queries: &Q,
    out: &mut S,
) -> Result<(), Status>
    requires callable { (i : ℕ) (q : _) → i < length (Q.collection queries.now).series
        → length q.now ≡ (Q.collection queries.now).points → P.pre piece_of.now context i q }
    ensures ok { OnOk result ((text : List ℕ)
        × IsTextOf (IsMade (P.post piece_of.now) context.now) (Q.collection queries.now).series text
        × (S.written out.new ≡ append_known (S.written out.old) text)) }
    ensures stops { IfErr result (Stops (IsMade (P.post piece_of.now) context.now) (Q.collection queries.now).series
        (wrote_to S.Sink out.old out.new)) }
    ensures counts { S.faults out.old ≤ S.faults out.new }
{
    for i in 0..queries.count() {
        let text = piece_of(context, i, row_of(queries, i))?;
        write_whole(out, &text)?;
    }
    Ok(())
}
