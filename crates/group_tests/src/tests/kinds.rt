//! Series of several kinds, as a generator draws them: such as means tell apart, and such as only codes of all values do.
ghost use Rattle.std.specs.Prelude.{◌≡◌, IfOk};

use outside::NoMemory;
use rand_xoshiro::SplitMix64;
use rand_xoshiro::rand_core::Rng;
use series_core::Flat;
use std::alloc::Global;

/// What the values of a series are like.
#[derive(Clone, Copy, Debug)]
pub enum Kind {
    /// Sums of small steps, which the tree serves.
    Walk,
    /// Values of their own, which are swept.
    Noise,
    /// Values that swing to the other side at each step, which are swept.
    Shrill,
}

/// The value behind another one.
fn next_value(kind: Kind, drawn: i32, last: i32) -> i32 {
    let value = match kind {
        Kind::Walk => last.wrapping_add(drawn / 128),
        Kind::Noise => drawn,
        Kind::Shrill => (drawn / 4).wrapping_sub(last / 2),
    };
    value.clamp(-32768, 32767)
}

/// So many series of so many values, from 1 to 65536 of them, of these kinds in turn.
pub fn drawn_series(
    alloc: Global,
    rng: &mut SplitMix64,
    kinds: &[Kind],
    count: u32,
    length: u32,
) -> Result<Flat, NoMemory>
    ensures { IfOk result (λ rows. rows.points ≡ length) }
{
    if length < 1 || length > 65536 {
        return Err(NoMemory);
    }
    let mut values = Vec::new(alloc);
    for i in 0..count {
        let Some(kind) = kinds.get(i as usize % kinds.len().max(1)) else {
            return Err(NoMemory);
        };
        let mut last = (rng.next_u32() % 7) as i32 * 1000;
        for _place in 0..length {
            let drawn = (rng.next_u32() >> 16) as i32 - 32768;
            last = next_value(*kind, drawn, last);
            values.push(last.clamp(-32768, 32767) as i16)?;
        }
    }
    if values.len() % length as usize != 0 || values.len() > 16777216 {
        return Err(NoMemory);
    }
    Ok(Flat::from_values(length, values))
}
