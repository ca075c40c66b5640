//! The cut points of a series. Segment `j` of `w` over a series of length `n` holds the places from
//! `j * n / w` up to, and not including, `(j + 1) * n / w`, both rounded down.
ghost use Rattle.std.specs.Prelude.{◌≡◌, ◌+◌, ◌-◌, ◌*◌, ◌<◌, ◌≤◌, ◌++◌, length, pos, neg_ℤ, ◌≤ℤ◌, replicate};
ghost use Rattle.segment_sums.specs.Division.{IsDivision, division_of, cut_place};
ghost use Rattle.segment_sums.specs.Sum.{signed_sum, segment_sums, NoSumBelow, NoSumAbove};

use search_limits::RAISE;
use std::marker::Model;

/// A series' length and its cut points, seen as the length and the number of segments.
#[derive(Clone, Copy)]
pub struct Cuts {
    row_length: u32,
    count: u32,
    starts: [u32; 17],
}

impl Model for Cuts {
    ghost use Rattle.segment_sums.specs.Division.{Division, IsDivision, division_of, cut_places};
    ghost use Rattle.std.specs.Prelude.{◌≡◌};
    ghost use Rattle.std.proofs.Common.{sym};

    ghost Value = { Division };

    ghost view = { λ cuts. division_of cuts.row_length cuts.count };

    ghost invariant = { λ cuts. IsDivision (division_of cuts.row_length cuts.count)
        × (cuts.starts ≡ cut_places (division_of cuts.row_length cuts.count)) };

    ghost inverse = { λ division. record {
      row_length = division.row_length;
      count = division.segments;
      starts = cut_places division;
    } };

    ghost inverse_ok = { λ cuts kept i. record {
      row_length = cuts.row_length;
      count = cuts.count;
      starts = sym kept.1 i;
    } };
}

impl Cuts {
    /// The cut points of a series of length `n` with `w` segments.
    pub fn new(n: u32, w: u32) -> Self
        requires some_segments { 1 ≤ w }
        requires few_segments { w ≤ 16 }
        requires no_empty_segment { w ≤ n }
        requires short_row { n ≤ 65536 }
        ensures { result ≡ division_of n w }
    {
        let mut starts = [0; 17];
        for j in 0..17 {
            starts[j] = j as u32 * n / w;
        }
        Cuts {
            row_length: n,
            count: w,
            starts,
        }
    }

    /// The number of segments, from 1 to 16.
    pub fn segments(&self) -> u32
        ensures value { result ≡ self.now.segments }
        ensures divides { IsDivision self.now }
    {
        self.count
    }

    /// The length of the series, from the number of segments to 65536.
    pub fn length(&self) -> u32
        ensures value { result ≡ self.now.row_length }
        ensures divides { IsDivision self.now }
    {
        self.row_length
    }

    /// The places from which and up to which, the latter left out, segment `j` reaches.
    pub fn cut(&self, j: u32) -> (u32, u32)
        requires { j < self.now.segments }
        ensures from { result.0 ≡ cut_place self.now j }
        ensures to { result.1 ≡ cut_place self.now (j + 1) }
        ensures not_empty { result.0 < result.1 }
        ensures inside { result.1 ≤ self.now.row_length }
    {
        (self.starts[j as usize], self.starts[j as usize + 1])
    }

    /// The sum of a row's values over each segment; the entries from the number of segments on become 0.
    /// The sum over a segment of length `l` lies from `-32768 * l` to `32767 * l`.
    pub fn sums(&self, row: &[i16], into: &mut [i32; 16])
        requires { length row.now ≡ self.now.row_length }
        ensures sums { into.new ≡ segment_sums self.now row.now ++ replicate (16 - self.now.segments) (pos 0) }
        ensures not_low { NoSumBelow self.now row.now self.now.segments }
        ensures not_high { NoSumAbove self.now row.now self.now.segments }
    {
        match (self.segments(), self.length()) {
            (8, 8) => self.equal_sums::<8, 1>(row, into),
            (16, 32) => self.equal_sums::<16, 2>(row, into),
            (16, 64) => self.equal_sums::<16, 4>(row, into),
            (16, 128) => self.equal_sums::<16, 8>(row, into),
            (16, 256) => self.equal_sums::<16, 16>(row, into),
            (16, 512) => self.equal_sums::<16, 32>(row, into),
            (16, 1024) => self.equal_sums::<16, 64>(row, into),
            _ => self.any_sums(row, into),
        }
    }

    // The sums over W segments of L values each. The compiler knows both numbers, so that it adds a segment's values without a loop.
    fn equal_sums<const W: usize, const L: usize>(&self, row: &[i16], into: &mut [i32; 16])
        requires length { length row.now ≡ self.now.row_length }
        requires segments { self.now.segments ≡ W }
        requires equal { self.now.row_length ≡ W * L }
        ensures sums { into.new ≡ segment_sums self.now row.now ++ replicate (16 - self.now.segments) (pos 0) }
        ensures not_low { NoSumBelow self.now row.now self.now.segments }
        ensures not_high { NoSumAbove self.now row.now self.now.segments }
    {
        // for the fact that the cuts divide
        let _segments = self.segments();
        *into = [0; 16];
        for j in 0..W {
            into[j] = sum_of(&row[j * L..j * L + L]);
        }
    }

    // The sums over segments of any lengths.
    fn any_sums(&self, row: &[i16], into: &mut [i32; 16])
        requires { length row.now ≡ self.now.row_length }
        ensures sums { into.new ≡ segment_sums self.now row.now ++ replicate (16 - self.now.segments) (pos 0) }
        ensures not_low { NoSumBelow self.now row.now self.now.segments }
        ensures not_high { NoSumAbove self.now row.now self.now.segments }
    {
        *into = [0; 16];
        for j in 0..self.segments() {
            let (from, to) = self.cut(j);
            into[j as usize] = sum_of(&row[from as usize..to as usize]);
        }
    }
}

/// The sum of at most 65536 values.
#[inline(always)]
fn sum_of(values: &[i16]) -> i32
    requires { length values.now ≤ 65536 }
    ensures value { result ≡ signed_sum values.now }
    ensures not_low { neg_ℤ (pos (RAISE * length values.now)) ≤ℤ result }
    ensures not_high { result ≤ℤ pos (32767 * length values.now) }
{
    let mut sum = 0;
    for value in values {
        sum += i32::from(*value);
    }
    sum
}

/// The law that the segments cover the row: the first begins at its start and the last ends at its end,
/// and each ends where the next begins, since both are the same cut point.
pub fn segments_cover(cuts: &Cuts)
    ensures from_the_start { cut_place cuts.now 0 ≡ 0 }
    ensures to_the_end { cut_place cuts.now cuts.now.segments ≡ cuts.now.row_length }
{
    let _segments = cuts.segments();
}
