//! Texts of trees that were built, and what both readers make of them: the worked text and a tree of many splits.
ghost use Rattle.std.specs.Prelude.{◌≡◌, IfOk};

use crate::claims::assert_same;
use crate::tests::readers::difference;
use breakpoints::Table;
use isax_word::Layout;
use outside::NoGate;
use saved_index::{can_save, save};
use segment_sums::Cuts;
use series_core::Flat;
use std::alloc::Global;
use std::test::Fail;
use std::thread::Threads;
use subtree_build::{Settings, build};

/// The text of the worked collection of four series of four values, by two segments.
pub(crate) const TEXT: [u8; 58] = [
    0x49, 0x53, 0x45, 0x58, 1, 0, 2, 0, 4, 0, 0, 0, 4, 0, 0, 0, 0xe8, 3, 0, 0, 2, 0, 0, 0, // header
    0, 0, 0, 0, 0, 1, 0, 0, 0, 2, 0, 0, 0, // root 0
    3, 0, 0, 0, 0, 3, 0, 0, 0, 0, 0, 0, 0, 1, 0, 0, 0, 3, 0, 0, 0, // root 3
];

/// The values of the worked collection.
pub(crate) const WORKED: [i16; 16] = [0, 0, 0, 0, 10, 10, 10, 10, -10, -10, -10, -10, 0, 0, 10, 10];

/// The worked collection.
pub(crate) fn worked(alloc: Global) -> Result<Flat, Fail>
    ensures { IfOk result (λ rows. rows.points ≡ 4) }
{
    Ok(Flat::from_values(4, WORKED.to_vec(alloc)?))
}

/// The text of the tree of rows of length 4 by two segments, with the leaf size `leaf_size`.
pub(crate) fn text_of<H: Threads + Sync>(
    rt: &H,
    alloc: Global,
    rows: &Flat,
    count: u32,
    leaf_size: u32,
) -> Result<Vec<u8>, Fail>
    requires { rows.now.points ≡ 4 }
{
    text_by(rt, alloc, rows, Cuts::new(4, 2), count, leaf_size)
}

/// The text of the tree of rows cut in this way.
pub(crate) fn text_by<H: Threads + Sync>(
    rt: &H,
    alloc: Global,
    rows: &Flat,
    cuts: Cuts,
    count: u32,
    leaf_size: u32,
) -> Result<Vec<u8>, Fail>
    requires { rows.now.points ≡ cuts.row_length }
{
    let layout = Layout {
        cuts,
        table: Table::Flat,
    };
    let settings = Settings { layout, leaf_size };
    let Ok(index) = build(rt, alloc, rows, &settings, 1, &NoGate) else {
        return Err(Fail::new("no memory for the tree"));
    };
    if !can_save(&settings, count, &index) {
        return Err(Fail::new("the tree cannot be saved"));
    }
    match save(alloc, &settings, count, &index) {
        Ok(bytes) => Ok(bytes),
        Err(_) => Err(Fail::new("no memory for the text")),
    }
}

#[test]
fn the_worked_text(rt: HostRuntime) -> Result<(), Fail> {
    let alloc = rt.alloc();
    let rows = worked(alloc)?;
    let bytes = text_of(&rt, alloc, &rows, 4, 1000)?;
    assert_same!(rt; bytes.as_slice(), TEXT.as_slice(), "the worked text");
    Ok(())
}

#[test]
fn a_tree_of_many_splits(rt: HostRuntime) -> Result<(), Fail> {
    let alloc = rt.alloc();
    let values = [0i16, 0, 0, 0, 0, 0, 20000, 20000, 300, 300, 600, 600];
    let rows = Flat::from_values(4, values.to_vec(alloc)?);
    let bytes = text_of(&rt, alloc, &rows, 3, 1)?;
    if bytes.len() < 24 + 4 + 2 * 12 {
        return Err(Fail::new("a tree without its splits"));
    }
    let found = difference(&rt, alloc, &rows, &values, bytes.as_slice())?;
    assert_same!(rt; found, None, "three series in leaves of one");
    Ok(())
}
