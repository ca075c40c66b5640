//! Pops by one to four passes in a random order of calls, each reply against a plain queue.
ghost use Rattle.std.specs.Prelude.{◌≡◌, ◌<◌, All, length, vec_len};
ghost use Rattle.sealed_runs.specs.Visits.{IsPass};

use super::plain::{Plain, plain_queues, scattered};
use crate::claims::assert_same;
use outside::NoMemory;
use sealed_runs::{RunPass, Runs};
use series_core::PopReply;
use std::test::Fail;

/// One pop, where the run has not closed to the pass.
pub(crate) fn pop_open(runs: &Runs, pass: &mut RunPass, m: u32, limit: u64) -> Option<PopReply>
    requires own { IsPass runs.now.runs pass.old }
    requires queue { m < length runs.now.runs }
    ensures { IsPass runs.now.runs pass.new }
{
    if pass.is_closed(m) {
        return None;
    }
    Some(runs.pop(pass, m, limit))
}

// One pop by the pass at this place.
fn call(
    runs: &Runs,
    passes: &mut Vec<RunPass>,
    place: usize,
    m: u32,
    limit: u64,
) -> Option<PopReply>
    requires own { All (IsPass runs.now.runs) passes.old.items }
    requires place { place < vec_len passes.old }
    requires queue { m < length runs.now.runs }
    ensures own { All (IsPass runs.now.runs) passes.new.items }
    ensures count { vec_len passes.new ≡ vec_len passes.old }
{
    pop_open(runs, &mut passes[place], m, limit)
}

// Whether each reply of 300 random calls is the plain queue's.
fn replies_agree(
    runs: &Runs,
    passes: &mut Vec<RunPass>,
    plain: &mut Vec<Plain>,
    queues: u32,
    seed: u64,
) -> Result<bool, NoMemory>
    requires own { All (IsPass runs.now.runs) passes.old.items }
    requires some { (0 < vec_len passes.old) × (0 < queues) }
    requires queues { (queues ≡ length runs.now.runs) × (queues ≡ vec_len plain.old) }
    ensures own { All (IsPass runs.now.runs) passes.new.items }
    ensures count { vec_len passes.new ≡ vec_len passes.old }
    ensures plain { vec_len plain.new ≡ vec_len plain.old }
{
    let mut state = seed;
    for _turn in 0..300u32 {
        state = state
            .wrapping_mul(6364136223846793005)
            .wrapping_add(1442695040888963407);
        let place = ((state >> 33) % passes.len() as u64) as usize;
        let m = ((state >> 13) % u64::from(queues)) as u32;
        let limit = (state >> 45) % 1100;
        let Some(reply) = call(runs, passes, place, m, limit) else {
            continue;
        };
        if plain[m as usize].pop(limit)? != reply {
            return Ok(false);
        }
    }
    Ok(true)
}

#[test]
fn random_calls_answer_as_a_plain_queue_does(rt: HostRuntime) -> Result<(), Fail> {
    for (callers, queues, count, seed) in [
        (1, 1, 40, 3),
        (2, 3, 200, 8),
        (3, 2, 90, 21),
        (4, 4, 300, 55),
        (4, 5, 0, 9),
    ] {
        let alloc = rt.alloc();
        let entries = scattered(alloc, count)?;
        let mut plain = plain_queues(alloc, &entries, queues)?;
        let (runs, mut passes) = Runs::seal(alloc, entries, queues, callers)?;
        let agree = replies_agree(&runs, &mut passes, &mut plain, queues, seed)?;
        assert_same!(rt; agree, true, "replies to {callers} passes over {queues} runs");
        let closed = runs.close(passes);
        for m in 0..queues {
            let same = plain[m as usize].is_run(&closed, m);
            assert_same!(rt; same, true, "run {m} of {queues} with {callers} passes");
        }
    }
    Ok(())
}
