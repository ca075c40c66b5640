//! One writer and two readers in threads of their own over one collection: counts never fall, and each answer is that of a
//! plain list.
ghost use Rattle.std.specs.Prelude.{◌≡◌, ◌<◌, ◌≤◌, ◌*◌, All, IfOk, IfSome, length, vec_len};
ghost use Rattle.live_collection.specs.Sides.{AreAllReaders, IsReaderOf, IsWriterOf, points_of};

use crate::claims::assert_same;
use crate::collection::{are_same, settings_of_four};
use live_collection::{LiveCollection, Reader, Writer};
use outside::NoMemory;
use series_core::Flat;
use std::alloc::Global;
use std::sync::Wait;
use std::test::*;
use std::thread::{Threads, for_each_mut};

const BATCHES: u32 = 40;

const SERIES: u32 = 5;

const ASKS: u32 = 100;

const NEAREST: u32 = 3;

// Each value of the series with this number.
fn shade(number: u32) -> i16 {
    (number.wrapping_mul(37) % 101) as i16
}

// The values of some series in a row.
fn shades(alloc: Global, first: u32, count: u32) -> Result<Vec<i16>, NoMemory>
    ensures { IfOk result (λ values. vec_len values ≡ count * 4) }
{
    let mut values = Vec::new(alloc);
    for place in 0..count {
        let value = shade(first.wrapping_add(place));
        values.extend_from_slice(&[value, value, value, value])?;
    }
    Ok(values)
}

// The nearest of the first series to a query of one value: distances and numbers.
fn plain_nearest(alloc: Global, count: u32, value: i16) -> Result<Vec<(u64, u32)>, NoMemory> {
    let mut near = Vec::new(alloc);
    for number in 0..count {
        let gap = shade(number).abs_diff(value) as u64;
        near.push((gap.wrapping_mul(gap).wrapping_mul(4), number))?;
    }
    near.sort_unstable();
    near.truncate(NEAREST as usize);
    Ok(near)
}

// One that acts in a thread of its own.
#[derive(Drop)]
struct Actor<'a> {
    live: &'a LiveCollection,
    writer: Option<Writer>,
    reader: Option<Reader>,
    right: bool,
}

impl Actor<'_> {
    // The writer's part: all batches, each of which stands with those before it.
    fn append_all<R: Threads + Wait + Sync>(&self, rt: &R, alloc: Global, own: &mut Writer) -> bool
        requires writer { IsWriterOf self.now.live.now own.old }
        requires points { points_of self.now.live.now ≡ 4 }
    {
        for batch in 0..BATCHES {
            let Ok(values) = shades(alloc, batch * SERIES, SERIES) else {
                return false;
            };
            let rows = Flat::from_values(4, values);
            match self.live.append(rt, alloc, own, rows) {
                Ok(count) if count == (batch + 1) * SERIES => {}
                _ => return false,
            }
        }
        true
    }

    // A reader's part: many asks, whose counts do not fall, and whose answers are those of the first series.
    fn ask_often<R: Threads + Wait + Sync>(&self, rt: &R, alloc: Global, own: &mut Reader) -> bool
        requires reader { IsReaderOf self.now.live.now own.old }
        requires points { points_of self.now.live.now ≡ 4 }
    {
        let mut last = 0;
        for ask in 0..ASKS {
            let value = shade(ask);
            let Ok(reply) = self
                .live
                .ask(rt, alloc, own, &[value, value, value, value], NEAREST)
            else {
                return false;
            };
            let Ok(plain) = plain_nearest(alloc, reply.count, value) else {
                return false;
            };
            if reply.count < last || !are_same(&reply.pairs.items, &plain) {
                return false;
            }
            last = reply.count;
        }
        true
    }
}

fn act<R: Threads + Wait + Sync>(rt: &R, alloc: Global, actor: &mut Actor<'_>)
    requires { (points_of actor.old.live.now ≡ 4) × IfSome actor.old.writer (IsWriterOf actor.old.live.now)
        × IfSome actor.old.reader (IsReaderOf actor.old.live.now) }
{
    if let Some(mut writer) = actor.writer.take() {
        actor.right = actor.append_all(rt, alloc, &mut writer);
    }
    if let Some(mut reader) = actor.reader.take() {
        actor.right = actor.ask_often(rt, alloc, &mut reader);
    }
}

// All act at once.
fn act_all<R: Threads + Wait + Sync>(rt: &R, alloc: Global, actors: &mut [Actor<'_>])
    requires some { 0 < length actors.old }
    requires actors { All (λ a. (points_of a.live.now ≡ 4) × IfSome a.writer (IsWriterOf a.live.now)
        × IfSome a.reader (IsReaderOf a.live.now)) actors.old }
{
    let count = actors.len();
    for_each_mut(
        rt,
        actors,
        count,
        &|_, actor|
            requires { (points_of actor.old.live.now ≡ 4) × IfSome actor.old.writer (IsWriterOf actor.old.live.now)
                × IfSome actor.old.reader (IsReaderOf actor.old.live.now) }
        { act(rt, alloc, actor) },
    );
}

// Whether all were answered rightly: the writer, and two readers.
fn all_right<R: Threads + Wait + Sync>(
    rt: &R,
    alloc: Global,
    live: &LiveCollection,
    writer: Writer,
    first: Reader,
    second: Reader,
) -> bool
    requires points { points_of live.now ≡ 4 }
    requires writer { IsWriterOf live.now writer }
    requires readers { IsReaderOf live.now first × IsReaderOf live.now second }
{
    let mut actors = [
        Actor {
            live,
            writer: Some(writer),
            reader: None,
            right: false,
        },
        Actor {
            live,
            writer: None,
            reader: Some(first),
            right: false,
        },
        Actor {
            live,
            writer: None,
            reader: Some(second),
            right: false,
        },
    ];
    act_all(rt, alloc, &mut actors);
    actors[0].right && actors[1].right && actors[2].right
}

// Whether two of the readers, and the writer, were answered rightly.
fn two_readers_right<R: Threads + Wait + Sync>(
    rt: &R,
    alloc: Global,
    live: &LiveCollection,
    writer: Writer,
    readers: &mut Vec<Reader>,
) -> Option<bool>
    requires points { points_of live.now ≡ 4 }
    requires writer { IsWriterOf live.now writer }
    requires readers { AreAllReaders live.now readers.old.items }
{
    let second = readers.pop()?;
    let first = readers.pop()?;
    Some(all_right(rt, alloc, live, writer, first, second))
}

// The same of a new collection.
fn right_at_once<R: Threads + Wait + Sync>(rt: &R, alloc: Global) -> Option<bool> {
    let (live, writer, mut readers) = LiveCollection::begin(alloc, settings_of_four(), 2).ok()?;
    two_readers_right(rt, alloc, &live, writer, &mut readers)
}

#[test]
fn counts_never_fall_and_answers_are_those_of_a_plain_list(rt: HostRuntime) -> Result<(), Fail> {
    let right = right_at_once(&rt, rt.alloc()).ok_or("no memory")?;
    assert_same!(rt; right, true, "each was answered rightly");
    Ok(())
}
