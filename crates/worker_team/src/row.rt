//! A call at each place of a row. Its one rule: the caller starts all threads, and takes the last place itself.
ghost use Rattle.std.specs.Prelude.{◌≡◌, ◌+◌, ◌^◌, ◌<◌, length};
ghost use Rattle.std.specs.Fork.{AcceptsAt, AcceptsEach, ChangesAt, ChangesEach};
ghost use Rattle.worker_team.specs.Places.{AllFrom, BothFrom};
ghost use denote.Param.Send.{IsSend, IsSync};

use std::thread::{Threads, join_mut};

/// Calls `f(i, &mut row[i])` at each place, each in a thread of its own where one can be made, and at the last in this one. This
/// thread starts all others, one after the other: where threads start threads, the second generation waits for the first.
pub fn for_each_mut<R: Threads + Sync, T: Send, F: Fn(usize, &mut T) + Sync>(
    rt: &R,
    row: &mut [T],
    f: &F,
)
    requires accepts { AcceptsEach F.Fn f.now row.old }
    ensures { ChangesEach F.Fn f.now row.old row.new }
{
    each_from(rt, f, 0, row);
}

// The same for the places of a row from this one on. The row is the last parameter because the borrow checker does not cover a
// closure that reads a `&` after it lends a `&mut`.
#[cycle(threads)]
fn each_from<R: Threads + Sync, T: Send, F: Fn(usize, &mut T) + Sync>(
    rt: &R,
    f: &F,
    place: usize,
    row: &mut [T],
)
    requires room { place + length row.old < 2 ^ 64 }
    requires accepts { AllFrom (AcceptsAt F.Fn f.now) place row.old }
    ensures { BothFrom (ChangesAt F.Fn f.now) place row.old row.new }
{
    if row.len() < 2 {
        at_first(f, place, row);
        return;
    }
    let (one, others) = row.split_at_mut(1);
    one_and_others(rt, f, place, one, place + 1, others);
}

// The first place in a thread of its own, and beside it the others.
#[cycle(threads)]
fn one_and_others<R: Threads + Sync, T: Send, F: Fn(usize, &mut T) + Sync>(
    rt: &R,
    f: &F,
    place: usize,
    one: &mut [T],
    next: usize,
    others: &mut [T],
)
    requires short { length one.old < 2 }
    requires one { AllFrom (AcceptsAt F.Fn f.now) place one.old }
    requires room { next + length others.old < 2 ^ 64 }
    requires others { AllFrom (AcceptsAt F.Fn f.now) next others.old }
    ensures one { BothFrom (ChangesAt F.Fn f.now) place one.old one.new }
    ensures others { BothFrom (ChangesAt F.Fn f.now) next others.old others.new }
{
    let mut first = ||
        requires { IsSync F.row × IsSend T.row × (length one.now < 2) × AllFrom (AcceptsAt F.Fn f.now) place one.now }
        ensures { BothFrom (ChangesAt F.Fn f.entry.now) place one.entry.now one.exit.now }
    { at_first(f, place, one) };
    let mut rest = ||
        requires { IsSync R.row × IsSync F.row × IsSend T.row × (next + length others.now < 2 ^ 64) × AllFrom (AcceptsAt F.Fn f.now) next others.now }
        ensures { BothFrom (ChangesAt F.Fn f.entry.now) next others.entry.now others.exit.now }
    { each_from(rt, f, next, others) };
    join_mut(rt, &mut first, &mut rest);
}

// The call at the one place of a row that has no more.
fn at_first<T, F: Fn(usize, &mut T)>(f: &F, place: usize, row: &mut [T])
    requires short { length row.old < 2 }
    requires accepts { AllFrom (AcceptsAt F.Fn f.now) place row.old }
    ensures { BothFrom (ChangesAt F.Fn f.now) place row.old row.new }
{
    if !row.is_empty() {
        at(f, place, &mut row[0]);
    }
}

// The call at one place.
fn at<T, F: Fn(usize, &mut T)>(f: &F, place: usize, element: &mut T)
    requires { AcceptsAt F.Fn f.now place element.old }
    ensures { ChangesAt F.Fn f.now place element.old element.new }
{
    f(place, element);
}
