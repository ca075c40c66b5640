//! Values by a linear congruence.
ghost use Rattle.std.specs.Prelude.{◌≡◌, IfOk, vec_len};

use outside::NoMemory;
use std::alloc::Global;

/// Values by a linear congruence, each from -`spread` to `spread`.
#[derive(Drop)]
pub struct Source {
    state: u64,
    spread: u32,
}

impl Source {
    /// Values that begin from a number.
    pub fn new(seed: u64, spread: u32) -> Source {
        Source {
            state: seed,
            spread,
        }
    }

    /// The next value.
    fn value(&mut self) -> i16 {
        self.state = self
            .state
            .wrapping_mul(6364136223846793005)
            .wrapping_add(1442695040888963407);
        let spread = self.spread.min(30000);
        let span = u64::from(2 * spread + 1);
        let above = ((self.state >> 33) % span) as i32;
        (above - spread as i32) as i16
    }

    /// The next `count` values.
    pub fn values(&mut self, alloc: Global, count: u32) -> Result<Vec<i16>, NoMemory>
        ensures { IfOk result (λ values. vec_len values ≡ count) }
    {
        let mut values = Vec::new(alloc);
        for _value in 0..count {
            values.push(self.value())?;
        }
        Ok(values)
    }
}
