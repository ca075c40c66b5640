//! The numbers that decide how the queries of a run are shared out. Each says what it decides, in what unit, and what it was measured
//! to save. No answer depends on them.
ghost use Rattle.std.specs.Prelude.{◌≤◌};
ghost use Rattle.search_run.specs.declared.tuning.TheConstants.{MOST_QUERIES_OF_DRAW};

/// How many queries are answered ahead at most, side by side. So forks are few, few workers wait for the last query of a round,
/// and no more lists of pairs than these wait to be written.
pub const QUERIES_AHEAD: u32 = 2048;

/// How many are answered ahead at first; then as many as have been answered before. So the first texts are soon written: four workers answer so many of
/// 500,000 walks in some 12 milliseconds.
pub const FIRST_QUERIES_AHEAD: u32 = 32;

/// How many queries a worker draws at a time, at most.
pub const MOST_QUERIES_OF_DRAW: u32 = 16;

/// How many queries a worker draws at a time, where so many would be its share. Those of a draw that are swept go through the codes of the
/// rows in fours, in two thirds of the time. Queries differ in how long they take: with fewer draws than four a worker, the others wait for
/// whoever drew the last.
pub fn queries_of_draw(share: u32) -> u32
    ensures { (1 ≤ result) × (result ≤ MOST_QUERIES_OF_DRAW) }
{
    if share < 8 {
        1
    } else if share < 32 {
        4
    } else if share < 64 {
        8
    } else {
        MOST_QUERIES_OF_DRAW
    }
}

/// How many searches pay for the means and codes beside a tree, at least. To make them takes as long as to build the tree.
pub const LEAST_SEARCHES_FOR_TABLES: u32 = 8;
