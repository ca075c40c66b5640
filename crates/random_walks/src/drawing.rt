//! Random walks from the generator SplitMix64 (Steele, Lea, Flood, OOPSLA 2014): collections made from one number.
//! Each value is the value before it and a step of one word, held within bounds; the next series draws on.

ghost use Rattle.std.specs.Prelude.{◌≡◌, ◌+◌, ◌*◌, ◌<◌, ◌≤◌, ◌++◌, ◌≤ℤ◌, pos, neg_ℤ, OnOk, IfOk};
ghost use Rattle.series_core.specs.declared.rows.TheConstants.{MAX_COUNT, MAX_LENGTH, MAX_VALUES};
ghost use Rattle.random_walks.specs.Walks.{state_at, stepped, walk, walks_from};

use outside::NoMemory;
use rand_core::SeedableRng;
use rand_core::utils::NextWord;
use rand_xoshiro::SplitMix64;
use series_core::Flat;
use std::alloc::Global;

/// The value farthest from 0 that a walk reaches.
const FARTHEST: i16 = 30000;

/// The generator that stands at this number: it is made from the number's eight bytes, the low one first.
pub fn generator(seed: u64) -> SplitMix64
    ensures { result ≡ seed }
{
    SplitMix64::from_seed(seed.to_le_bytes())
}

/// `count` walks of `length` values each, drawn one after another; the generator goes on behind the last.
pub fn walks(alloc: Global, rng: &mut SplitMix64, count: u32, length: u32) -> Result<Flat, NoMemory>
    requires some_point { 0 < length }
    requires length_limit { length ≤ MAX_LENGTH }
    requires count_limit { count ≤ MAX_COUNT }
    requires values_limit { count * length ≤ MAX_VALUES }
    ensures walks { IfOk result (λ flat. flat ≡ walks_from length rng.old count) }
    ensures moved { OnOk result (rng.new ≡ state_at rng.old (count * length)) }
{
    let mut values = Vec::with_capacity(alloc, count as usize * length as usize)?;
    for _i in 0..count {
        push_walk(&mut values, rng, length)?;
    }
    Ok(Flat::from_values(length, values))
}

// Appends one walk.
fn push_walk(values: &mut Vec<i16>, rng: &mut SplitMix64, length: u32) -> Result<(), NoMemory>
    ensures values { OnOk result (values.new.items ≡ values.old.items ++ walk length rng.old) }
    ensures moved { OnOk result (rng.new ≡ state_at rng.old length) }
{
    let mut value = 0i16;
    for _i in 0..length {
        value = step(value, rng.next_word());
        values.push(value)?;
    }
    Ok(())
}

// The value after the step of this word.
fn step(value: i16, word: u64) -> i16
    requires not_low { neg_ℤ (pos 30000) ≤ℤ value }
    requires not_high { value ≤ℤ pos 30000 }
    ensures value { result ≡ stepped value word }
    ensures not_low { neg_ℤ (pos 30000) ≤ℤ result }
    ensures not_high { result ≤ℤ pos 30000 }
{
    let step = (word % 201) as i16 - 100;
    (value + step).max(-FARTHEST).min(FARTHEST)
}
