//! The bounds of one-bit words, found for all numbers of up to eight bits: a bit more in front doubles the numbers.
ghost use Rattle.std.specs.Prelude.{◌≡◌, ◌+◌, ◌<◌, ◌≤◌};
ghost use Rattle.lower_bound.specs.Bound.{IsView};
ghost use Rattle.lower_bound.specs.Halves.{view_with, bit_cost, HoldsBounds};

use crate::cost::cost_of_bit;
use isax_word::Layout;

/// The cost of one bit as the part of segment `j`.
fn cost_at(layout: &Layout, sums: &[i32; 16], j: u32, bit: u32) -> u64
    requires is_view { IsView (view_with layout.now sums.now) }
    requires used { j < layout.now.cuts.segments }
    requires one_bit { bit < 2 }
    ensures { result ≡ bit_cost (view_with layout.now sums.now) j bit }
{
    let (from, to) = layout.cuts.cut(j);
    cost_of_bit(layout.table, to - from, sums[j as usize], bit)
}

/// Puts segment `j` in front of `count` segments: at each number the bound rises by the cost of a 0, and the numbers
/// with a 1 in front come to stand behind them.
fn put_in_front(layout: &Layout, sums: &[i32; 16], j: u32, count: u32, bounds: &mut [u64; 256])
    requires is_view { IsView (view_with layout.now sums.now) }
    requires few { count < 8 }
    requires inside { j + 1 + count ≤ layout.now.cuts.segments }
    requires before { HoldsBounds (view_with layout.now sums.now) (j + 1) count bounds.now }
    ensures { HoldsBounds (view_with layout.now sums.now) j (count + 1) bounds.new }
{
    let low = cost_at(layout, sums, j, 0);
    let high = cost_at(layout, sums, j, 1);
    let half = 1usize << count;
    for x in 0..half {
        let behind = bounds[x];
        bounds[half + x] = behind + high;
        bounds[x] = behind + low;
    }
}

/// The bounds of all numbers of `count` bits, of which the first is that of segment `first`.
pub(crate) fn bounds_of_bits(
    layout: &Layout,
    sums: &[i32; 16],
    first: u32,
    count: u32,
) -> [u64; 256]
    requires is_view { IsView (view_with layout.now sums.now) }
    requires few { count ≤ 8 }
    requires inside { first + count ≤ layout.now.cuts.segments }
    ensures { HoldsBounds (view_with layout.now sums.now) first count result }
{
    let mut bounds = [0; 256];
    for behind in 0..count {
        let j = first + count - 1 - behind;
        put_in_front(layout, sums, j, behind, &mut bounds);
    }
    bounds
}
