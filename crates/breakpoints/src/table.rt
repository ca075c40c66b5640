//! The two tables, the breakpoint at a place, and the law that each table ascends.
ghost use Rattle.std.specs.Prelude.{◌≡◌, ◌<◌, ◌≤◌, pos, neg_ℤ, ◌≤ℤ◌, ◌<ℤ◌};
ghost use Rattle.breakpoints.specs.Breakpoint.{breakpoint};

/// Which of the two tables of breakpoints. Its places run from 1 to 255 and place 128 holds 0.
#[derive(Clone, Copy, PartialEq, Eq, Debug)]
pub enum Table {
    /// Breakpoints 256 apart: for values that spread evenly over the range of an `i16`.
    Flat,
    /// Breakpoints that lie closer the nearer they are to 0, from 65 to 317 apart.
    Bent,
}

impl Table {
    /// The breakpoint at place `i`, which lies from -32512 to 32512.
    pub fn at(self, i: u32) -> i32
        requires first { 1 ≤ i }
        requires last { i ≤ 255 }
        ensures value { result ≡ breakpoint self i }
        ensures not_low { neg_ℤ (pos 32512) ≤ℤ result }
        ensures not_high { result ≤ℤ pos 32512 }
    {
        let from_middle = i as i16 - 128;
        match self {
            Table::Flat => i32::from(256 * from_middle),
            Table::Bent => i32::from(from_middle * (64 + from_middle.abs())),
        }
    }
}

/// The law that each table ascends strictly: of two places the later holds the greater breakpoint.
pub fn breakpoints_ascend(table: Table, i: u32, j: u32)
    requires first { 1 ≤ i }
    requires before { i < j }
    requires last { j ≤ 255 }
    ensures { breakpoint table i <ℤ breakpoint table j }
{}
