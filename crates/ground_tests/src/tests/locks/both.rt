//! What a caller of the lock can prove: two threads add a number each, and both are there, in one order or the other.
ghost use Rattle.std.specs.Prelude.{◌≡◌, ◌⊎◌, [], ◌∷◌, IfSome};
ghost use Rattle.turn_lock.specs.Passes.{IsPassOf, made_by};
ghost use Rattle.turn_lock.specs.History.{entry};

use super::notes::Notes;
use std::alloc::Global;
use std::sync::Wait;
use std::thread::{Threads, join};
use turn_lock::{TurnLock, TurnPass};

fn add<R: Wait>(
    rt: &R,
    lock: &TurnLock<Notes>,
    mut pass: TurnPass<Notes>,
    x: u64,
) -> (TurnPass<Notes>, Option<u64>)
    requires { IsPassOf lock.now pass × (made_by pass ≡ []) }
    ensures pass { IsPassOf lock.now result.0 × (result.0.number ≡ pass.number) }
    ensures made { made_by result.0 ≡ entry pass.number x result.1 ∷ [] }
{
    let reply = lock.call(rt, &mut pass, x);
    (pass, reply)
}

/// Two threads add a number each, and then one tells the other what it has seen. None for want of memory.
pub fn add_both<R: Threads + Wait + Sync>(
    rt: &R,
    alloc: Global,
    notes: Notes,
    a: u64,
    b: u64,
) -> Option<Notes>
    requires { notes ≡ [] }
    ensures { IfSome result (λ n. (n ≡ a ∷ b ∷ []) ⊎ (n ≡ b ∷ a ∷ [])) }
{
    let Ok((lock, mut passes)) = TurnLock::begin(alloc, notes, 2) else {
        return None;
    };
    let Some(two) = passes.pop() else {
        unreachable!()
    };
    let Some(one) = passes.pop() else {
        unreachable!()
    };
    let ((mut one, _), (mut two, _)) = join(
        rt,
        || -> (TurnPass<Notes>, Option<u64>)
            requires { IsPassOf lock one × (made_by one ≡ []) }
            ensures { IsPassOf lock result.0 × (result.0.number ≡ one.number)
                × (made_by result.0 ≡ entry one.number a result.1 ∷ []) }
        { add(rt, &lock, one, a) },
        || -> (TurnPass<Notes>, Option<u64>)
            requires { IsPassOf lock two × (made_by two ≡ []) }
            ensures { IsPassOf lock result.0 × (result.0.number ≡ two.number)
                × (made_by result.0 ≡ entry two.number b result.1 ∷ []) }
        { add(rt, &lock, two, b) },
    );
    lock.meet(&mut one, &mut two);
    passes.push_reserved(one);
    passes.push_reserved(two);
    Some(lock.close(passes))
}
