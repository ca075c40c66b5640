//! Small collections, summarised by passes that draw some of their chunks, against a plain list of what each root has.
ghost use Rattle.std.specs.Prelude.{◌≡◌, ◌*◌, ◌<◌, ◌≤◌, false, IfOk, length, vec_len};

use super::*;
use breakpoints::Table;
use claim_word::{ClaimPass, Claims};
use isax_word::Layout;
use outside::{Gate, NoMemory};
use segment_sums::Cuts;
use series_core::{Flat, Rows};
use std::alloc::Global;
use std::sync::atomic::{AtomicU64, Ordering};
use std::test::*;

/// The number, the two symbols and the root of a plain series.
type Plain = (u32, u8, u8, u32);

/// A value between -15000 and 15000 that jumps about.
fn value(number: u32, factor: u32) -> i16 {
    (number.wrapping_mul(factor) % 30001) as i16 - 15000
}

/// The values of series `number`, four of them.
fn row(number: u32) -> [i16; 4] {
    [
        value(number, 7919),
        value(number, 104729),
        value(number, 1299709),
        value(number, 15485863),
    ]
}

/// The values of `count` series in a row.
fn values(alloc: Global, count: u32) -> Result<Vec<i16>, NoMemory>
    requires { count ≤ 1000 }
    ensures { IfOk result (λ values. vec_len values ≡ count * 4) }
{
    let mut values = Vec::new(alloc);
    for number in 0..count {
        values.extend_from_slice(&row(number))?;
    }
    Ok(values)
}

/// How many breakpoints of the flat table, times two, are at or below the sum of two values.
fn plain_symbol(first: i16, second: i16) -> u8 {
    let sum = i32::from(first) + i32::from(second);
    let mut symbol = 0u8;
    for i in 1..256i32 {
        if i.wrapping_sub(128).wrapping_mul(512) <= sum {
            symbol = symbol.wrapping_add(1);
        }
    }
    symbol
}

/// Series `number` by its plain symbols; the root has the first bit of each.
fn plain(number: u32) -> Plain {
    let [a, b, c, d] = row(number);
    let first = plain_symbol(a, b);
    let second = plain_symbol(c, d);
    (
        number,
        first,
        second,
        u32::from(first / 128) * 2 + u32::from(second / 128),
    )
}

/// The series from `first` up to `count` that a plain list has under a root.
fn expected(alloc: Global, first: u32, count: u32, root: u32) -> Result<Vec<Plain>, NoMemory> {
    let mut found = Vec::new(alloc);
    for number in first..count {
        let series = plain(number);
        if series.3 == root {
            found.push(series)?;
        }
    }
    Ok(found)
}

/// What the buffers have under a root; they are left without it.
fn taken(alloc: Global, buffers: &mut Buffers, root: u32) -> Result<Vec<Plain>, NoMemory>
    requires { root < length buffers.old }
    ensures { length buffers.new ≡ length buffers.old }
{
    let mut found = Vec::new(alloc);
    for member in buffers.take(root).iter() {
        if member.full.segments() == 2 {
            let full = &member.full;
            found.push((member.number, full.symbol(0), full.symbol(1), root))?;
        }
    }
    Ok(found)
}

/// Counts the turns of one worker, and how many of them had another number than their place.
#[derive(Drop)]
struct Turns {
    seen: AtomicU64,
    wrong: AtomicU64,
}

impl Gate for Turns {
    fn pass(&self, worker: u32, turn: u64) {
        let place = self.seen.fetch_add(1, Ordering::SeqCst);
        if worker != 7 || turn != place {
            self.wrong.fetch_add(1, Ordering::SeqCst);
        }
    }
}

/// Draws `chunks` chunks, or as many as there are.
fn skip(claims: &Claims, pass: &mut ClaimPass, chunks: u32)
    requires own { pass.old.claims ≡ claims.now }
    requires goes_on { pass.old.ended ≡ false }
{
    for _chunk in 0..chunks {
        if claims.draw(pass).is_none() {
            return;
        }
    }
}

/// The buffers of worker 7 over `count` series, at most 1000, where another pass drew the first chunks before, and the number of
/// turns that were reported.
fn summarised<G: Gate>(
    alloc: Global,
    count: u32,
    skipped: u32,
    gate: &G,
) -> Result<(Buffers, u64), NoMemory>
    ensures { IfOk result (λ told. length told.0 ≡ 4) }
{
    let rows = Flat::from_values(4, values(alloc, count.min(1000))?);
    let layout = Layout {
        cuts: Cuts::new(4, 2),
        table: Table::Flat,
    };
    let (claims, mut passes) = Claims::begin(alloc, chunks(rows.count()), 2)?;
    let mut buffers = Buffers::new(alloc, 4)?;
    if let Some(mut other) = passes.pop() {
        skip(&claims, &mut other, skipped);
    }
    let Some(mut pass) = passes.pop() else {
        return Err(NoMemory);
    };
    let turns = summarise(
        alloc,
        &rows,
        &layout,
        &claims,
        &mut pass,
        &mut buffers,
        7,
        gate,
    )?;
    Ok((buffers, turns))
}

/// The first of four roots that holds other series than those from `first` up to `count`, or hands them out twice.
fn wrong_root(
    alloc: Global,
    buffers: &mut Buffers,
    first: u32,
    count: u32,
) -> Result<Option<u32>, NoMemory>
    requires { length buffers.old ≡ 4 }
{
    for root in 0..4u32 {
        let want = expected(alloc, first, count, root)?;
        let found = taken(alloc, buffers, root)?;
        let again = taken(alloc, buffers, root)?;
        if found != want || !again.is_empty() {
            return Ok(Some(root));
        }
    }
    Ok(None)
}

#[test]
fn each_root_has_the_series_of_the_drawn_chunks(rt: HostRuntime) -> Result<(), Fail> {
    let alloc = rt.alloc();
    for (count, skipped, turns) in [
        (0, 0u32, 1),
        (1, 0, 2),
        (255, 0, 2),
        (256, 0, 2),
        (256, 1, 1),
        (257, 0, 3),
        (257, 1, 2),
        (513, 0, 4),
        (513, 2, 2),
        (513, 3, 1),
    ] {
        let gate = Turns {
            seen: AtomicU64::new(0),
            wrong: AtomicU64::new(0),
        };
        let (mut buffers, told) = summarised(alloc, count, skipped, &gate)?;
        assert_eq!(rt;
            told,
            turns,
            "turns told over {count} series without {skipped} chunks"
        );
        assert_eq!(rt;
            gate.seen.load(Ordering::SeqCst),
            turns,
            "turns over {count} series without {skipped} chunks"
        );
        assert_eq!(rt;
            gate.wrong.load(Ordering::SeqCst),
            0,
            "wrong turns over {count} series without {skipped} chunks"
        );
        assert_eq!(rt;
            wrong_root(alloc, &mut buffers, skipped.wrapping_mul(256), count)?,
            None,
            "root of {count} series without {skipped} chunks"
        );
    }
    Ok(())
}

#[test]
fn chunks_are_of_256_series(rt: HostRuntime) {
    for (count, chunks_of_them) in [
        (0, 0),
        (1, 1),
        (255, 1),
        (256, 1),
        (257, 2),
        (512, 2),
        (513, 3),
    ] {
        assert_eq!(rt; chunks(count), chunks_of_them, "chunks of {count} series");
    }
}

/// Takes what threads may share and send.
fn crosses<T: Send + Sync>(_item: &T) {}

#[test]
fn buffers_cross_threads(rt: HostRuntime) -> Result<(), Fail> {
    let mut buffers = Buffers::new(rt.alloc(), 2)?;
    crosses(&buffers);
    assert_eq!(rt;
        taken(rt.alloc(), &mut buffers, 1)?.len(),
        0,
        "the last of two roots"
    );
    Ok(())
}
