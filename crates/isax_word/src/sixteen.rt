//! The symbols of sixteen segments at once, in the bent table. Each round halves the places that are left of all of them, so that a
//! compiler can put them side by side in lanes: the means by which they are found take 16 bits each.
ghost use Rattle.std.specs.Prelude.{◌≡◌, ℕ, ◌*◌, ◌<◌, pos, slice_index_or};
ghost use Rattle.breakpoints.specs.declared.table.Table.TheVariants.{Bent};
ghost use Rattle.isax_word.specs.Symbol.{AreMeansOf, AreSumsOf, symbol_of};

use crate::symbol::{bent_reached, mean_of};
use segment_sums::Cuts;

/// The means, rounded down, of the segments of these sums.
pub(crate) fn means_of(cuts: &Cuts, sums: &[i32; 16]) -> [i16; 16]
    requires { AreSumsOf cuts.now sums.now }
    ensures { AreMeansOf cuts.now sums.now result }
{
    match (cuts.segments(), cuts.length()) {
        (8, 8) => equal_means::<1>(cuts, sums),
        (16, 32) => equal_means::<2>(cuts, sums),
        (16, 64) => equal_means::<4>(cuts, sums),
        (16, 128) => equal_means::<8>(cuts, sums),
        (16, 256) => equal_means::<16>(cuts, sums),
        (16, 512) => equal_means::<32>(cuts, sums),
        (16, 1024) => equal_means::<64>(cuts, sums),
        _ => any_means(cuts, sums),
    }
}

/// The means of segments of `L` values each. The compiler knows this number, so that it divides without a division.
fn equal_means<const L: u32>(cuts: &Cuts, sums: &[i32; 16]) -> [i16; 16]
    requires sums { AreSumsOf cuts.now sums.now }
    requires equal { cuts.now.row_length ≡ cuts.now.segments * L }
    ensures { AreMeansOf cuts.now sums.now result }
{
    // for the fact that the cuts divide
    let _segments = cuts.segments();
    let mut means = [0; 16];
    for j in 0..16 {
        means[j] = mean_of(L, sums[j]);
    }
    means
}

/// The means of segments of any lengths.
fn any_means(cuts: &Cuts, sums: &[i32; 16]) -> [i16; 16]
    requires { AreSumsOf cuts.now sums.now }
    ensures { AreMeansOf cuts.now sums.now result }
{
    let mut means = [0; 16];
    for j in 0..cuts.segments() {
        let (from, to) = cuts.cut(j);
        means[j as usize] = mean_of(to - from, sums[j as usize]);
    }
    means
}

/// The symbols in the bent table of sixteen segments of these means.
pub(crate) fn bent_symbols(means: &[i16; 16]) -> [u16; 16]
    ensures { (j : ℕ) → j < 16 → slice_index_or result j 0 ≡ symbol_of Bent 1 (slice_index_or means.now j (pos 0)) }
{
    let mut symbols = [0; 16];
    for round in 0..8u32 {
        let step = 128 >> round;
        for j in 0..16 {
            symbols[j] += step * bent_reached(means[j], symbols[j] + step);
        }
    }
    symbols
}
