//! What a worker does in the first phase: it draws chunks until none is left, and puts the members of each into its
//! buffers.
ghost use Rattle.std.specs.Prelude.{◌≡◌, ◌<◌, ◌≤◌, ◌+◌, ◌^◌, [], true, IfOk, OnOk, length, replicate};
ghost use Rattle.claim_word.specs.Passes.{fresh_pass};
ghost use Rattle.series_core.specs.Collection.{IsCollection};
ghost use Rattle.summary_phase.specs.Chunks.{chunk_count};
ghost use Rattle.summary_phase.specs.Roots.{buffers_of, HasPut};

use crate::buffers::Buffers;
use crate::chunk::numbers;
use claim_word::{ClaimPass, Claims};
use isax_word::{Full, Layout, Member, root_of};
use outside::{Gate, NoMemory};
use series_core::Rows;
use std::alloc::Global;
use std::ops::Range;

/// Draws chunks with this pass until none is left, and puts the members of each into the buffers, each behind those
/// of its root. `gate.pass(worker, turn)` comes before each draw, turns counted from 0. Ok tells the number of these
/// turns. It waits for nobody.
pub fn summarise<R: Rows, G: Gate>(
    alloc: Global,
    rows: &R,
    layout: &Layout,
    claims: &Claims,
    pass: &mut ClaimPass,
    buffers: &mut Buffers,
    worker: u32,
    gate: &G,
) -> Result<u64, NoMemory>
    requires length { layout.now.cuts.row_length ≡ (R.collection rows.now).points }
    requires chunks { claims.now.count ≡ chunk_count (length (R.collection rows.now).series) }
    requires fresh { pass.old ≡ fresh_pass claims.now }
    requires empty { buffers.old ≡ replicate (2 ^ layout.now.cuts.segments) [] }
    ensures own { pass.new.claims ≡ claims.now }
    ensures ended { OnOk result (pass.new.ended ≡ true) }
    ensures members { OnOk result (buffers.new ≡ buffers_of layout.now (R.collection rows.now) pass.new.draws) }
    ensures turns { IfOk result (λ turns. turns ≡ length pass.new.draws + 1) }
{
    let count = rows.count();
    let mut turn = 0;
    loop {
        gate.pass(worker, turn);
        turn += 1;
        let Some(chunk) = claims.draw(pass) else {
            return Ok(turn);
        };
        put_members(alloc, rows, layout, numbers(chunk, count), buffers)?;
    }
}

/// Puts the members with these numbers into the buffers, each behind those of its root.
fn put_members<R: Rows>(
    alloc: Global,
    rows: &R,
    layout: &Layout,
    numbers: Range<u32>,
    buffers: &mut Buffers,
) -> Result<(), NoMemory>
    requires sound { IsCollection (R.collection rows.now) }
    requires length { layout.now.cuts.row_length ≡ (R.collection rows.now).points }
    requires order { numbers.start ≤ numbers.end }
    requires limit { numbers.end ≤ length (R.collection rows.now).series }
    requires roots { length buffers.old ≡ 2 ^ layout.now.cuts.segments }
    ensures { OnOk result (HasPut layout.now (R.collection rows.now) numbers.start numbers.end buffers.old buffers.new) }
{
    for number in numbers.start..numbers.end {
        let full = Full::of(layout, rows.row(number));
        buffers.put(alloc, root_of(&full), Member { number, full })?;
    }
    Ok(())
}
