//! Callers in threads of their own over one lock: each call is there once when the lock is closed.
ghost use Rattle.std.specs.Prelude.{◌≡◌, ℕ, ◌<◌, ◌≤◌, All, length, slice_index_or};
ghost use Rattle.turn_lock.specs.Passes.{IsPassOf};

mod both;
mod notes;

use crate::claims::assert_same;
use both::add_both;
use notes::Notes;
use std::alloc::Global;
use std::sync::Wait;
use std::test::Fail;
use std::thread::{Threads, for_each_mut};
use turn_lock::{TurnLock, TurnPass};

const CALLS: usize = 100;

// A caller adds its own number, again and again.
fn add_often<R: Wait>(rt: &R, lock: &TurnLock<Notes>, pass: &mut TurnPass<Notes>)
    requires { IsPassOf lock.now pass.old }
    ensures { IsPassOf lock.now pass.new × (pass.new.number ≡ pass.old.number) }
{
    let number = pass.number() as u64;
    for _ in 0..CALLS {
        let _place = lock.call(rt, pass, number);
    }
}

// Each caller in a thread of its own, all over one lock.
fn add_each<R: Threads + Wait + Sync>(
    rt: &R,
    lock: &TurnLock<Notes>,
    passes: &mut [TurnPass<Notes>],
)
    requires passes { All (λ p. IsPassOf lock.now p) passes.old }
    requires some { 0 < length passes.old }
    ensures passes { All (λ p. IsPassOf lock.now p) passes.new }
    ensures numbers { (i : ℕ) (d : _) → i < length passes.old
        → (slice_index_or passes.new i d).number ≡ (slice_index_or passes.old i d).number }
{
    let callers = passes.len();
    for_each_mut(rt, passes, callers, &|_, pass| add_often(rt, lock, pass));
}

// What is there when the lock is closed. None for want of memory.
fn add_in_threads<R: Threads + Wait + Sync>(rt: &R, alloc: Global, callers: u32) -> Option<Notes>
    requires { (0 < callers) × (callers ≤ 64) }
{
    let Ok(notes) = Notes::new(alloc) else {
        return None;
    };
    let Ok((lock, mut passes)) = TurnLock::begin(alloc, notes, callers) else {
        return None;
    };
    add_each(rt, &lock, passes.as_mut_slice());
    Some(lock.close(passes))
}

#[test]
fn each_call_is_there_once(rt: HostRuntime) -> Result<(), Fail> {
    for callers in [2, 4] {
        let notes = add_in_threads(&rt, rt.alloc(), callers).ok_or("no memory")?;
        assert_same!(rt; notes.len(), callers as usize * CALLS, "{callers} callers");
        for caller in 0..callers {
            assert_same!(rt; notes.count_of(caller as u64), CALLS, "caller {caller}");
        }
    }
    Ok(())
}

#[test]
fn both_are_there(rt: HostRuntime) -> Result<(), Fail> {
    let notes = Notes::new(rt.alloc())?;
    let notes = add_both(&rt, rt.alloc(), notes, 5, 7).ok_or("no memory")?;
    assert_same!(rt;
        (notes.len(), notes.count_of(5), notes.count_of(7)),
        (2, 1, 1)
    );
    Ok(())
}
