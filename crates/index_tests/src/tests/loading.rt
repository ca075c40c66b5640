//! Loading over collections in memory: the refusals of the worked text, each change of one of its bytes and each of its beginnings against
//! a plain reader, reads that fail, a tree of nested splits saved by hand, and trees of drawn collections.
ghost use Rattle.std.specs.Prelude.{◌≡◌, IfOk};

use crate::claims::assert_same;
use crate::tests::readers::{difference, loaded};
use crate::tests::texts::{TEXT, WORKED, text_by, text_of, worked};
use saved_index::{IndexFault, LoadedIndex, can_save, save};
use segment_sums::Cuts;
use series_core::Flat;
use std::alloc::Global;
use std::test::Fail;
use std::thread::Threads;

/// The first `size` bytes of the worked text with a zero behind it, with other values at some places.
fn changed(alloc: Global, size: usize, changes: &[(usize, u8)]) -> Result<Vec<u8>, Fail> {
    let mut bytes = TEXT.to_vec(alloc)?;
    bytes.push(0)?;
    for (place, value) in changes {
        if let Some(byte) = bytes.get_mut(*place) {
            *byte = *value;
        }
    }
    bytes.truncate(size);
    Ok(bytes)
}

#[test]
fn the_first_refusal(rt: HostRuntime) -> Result<(), Fail> {
    let alloc = rt.alloc();
    let four = worked(alloc)?;
    let three = Flat::from_values(4, [0i16; 12].to_vec(alloc)?);
    let longer = Flat::from_values(5, [0i16; 15].to_vec(alloc)?);
    let cases: [(&str, &Flat, &[(usize, u8)], IndexFault); 6] = [
        ("three series", &three, &[], IndexFault::Count(4, 3)),
        ("three of five", &longer, &[], IndexFault::Length(4, 5)),
        ("root 0 has 3", &four, &[(33, 3)], IndexFault::Unfit(2)),
        ("1 and 2", &four, &[(33, 1), (50, 2)], IndexFault::Unfit(1)),
        ("root 0 has 0", &four, &[(33, 0)], IndexFault::Unfit(0)),
        ("root 3 is 2", &four, &[(37, 2)], IndexFault::Unfit(0)),
    ];
    for (name, rows, changes, want) in cases {
        let bytes = changed(alloc, 58, changes)?;
        for tables in [true, false] {
            let found = loaded(&rt, alloc, rows, bytes.as_slice(), &[], tables)?;
            assert_same!(rt; found.err(), Some(want), "{name}, tables: {tables}");
        }
    }
    Ok(())
}

/// In what the two readers differ on the beginning of the worked text, with other values at some places.
fn worked_difference<H: Threads + Sync>(
    rt: &H,
    alloc: Global,
    size: usize,
    changes: &[(usize, u8)],
) -> Result<Option<&'static str>, Fail> {
    let bytes = changed(alloc, size, changes)?;
    difference(rt, alloc, &worked(alloc)?, &WORKED, bytes.as_slice())
}

#[test]
fn each_byte_changed(rt: HostRuntime) -> Result<(), Fail> {
    for place in 0..58usize {
        for value in 0..=255u8 {
            let found = worked_difference(&rt, rt.alloc(), 58, &[(place, value)])?;
            assert_same!(rt; found, None, "{value} at {place}");
        }
    }
    Ok(())
}

// Of the whole text each read fails in turn, too.
#[test]
fn each_beginning_and_more(rt: HostRuntime) -> Result<(), Fail> {
    let alloc = rt.alloc();
    let rows = worked(alloc)?;
    for size in 0..60usize {
        let found = worked_difference(&rt, alloc, size, &[])?;
        assert_same!(rt; found, None, "the first {size} bytes");
        let bytes = changed(alloc, size, &[])?;
        let reads = if size == 58 { 7 } else { 1 };
        for listed in 0..reads {
            // In pieces of sixteen bytes the text needs four reads, and its end a fifth.
            let want = if size != 58 {
                Some(IndexFault::NotIndex)
            } else if listed >= 1 && listed <= 5 {
                Some(IndexFault::ReadFault)
            } else {
                None
            };
            let found = loaded(&rt, alloc, &rows, bytes.as_slice(), &[listed], true)?;
            assert_same!(rt; found.err(), want, "the first {size} bytes, read {listed} fails");
        }
    }
    Ok(())
}

/// The text of an index that was loaded, saved again.
fn saved_again(alloc: Global, count: u32, loaded: &LoadedIndex) -> Result<Vec<u8>, Fail> {
    let LoadedIndex { settings, index } = loaded;
    if !can_save(settings, count, index) {
        return Err(Fail::new("what was loaded cannot be saved"));
    }
    match save(alloc, settings, count, index) {
        Ok(bytes) => Ok(bytes),
        Err(_) => Err(Fail::new("no memory for the text")),
    }
}

/// Loads these bytes, which have no fault, with tables or with none, and saves what was loaded.
fn back_with<H: Threads + Sync>(
    rt: &H,
    alloc: Global,
    rows: &Flat,
    count: u32,
    bytes: &[u8],
    tables: bool,
) -> Result<Vec<u8>, Fail> {
    let Ok(found) = loaded(rt, alloc, rows, bytes, &[], tables)? else {
        return Err(Fail::new("a text was refused"));
    };
    if found.index.has_means() != tables || found.index.has_codes() != tables {
        return Err(Fail::new("other tables stand beside the tree"));
    }
    saved_again(alloc, count, &found)
}

/// What is saved of these bytes, which have no fault, once they are loaded: with tables and with none it is to be the same.
fn back<H: Threads + Sync>(
    rt: &H,
    alloc: Global,
    rows: &Flat,
    count: u32,
    bytes: &[u8],
) -> Result<Vec<u8>, Fail> {
    let beside = back_with(rt, alloc, rows, count, bytes, true)?;
    let alone = back_with(rt, alloc, rows, count, bytes, false)?;
    if alone.as_slice() != beside.as_slice() {
        return Err(Fail::new("without tables another text is saved"));
    }
    Ok(beside)
}

#[test]
fn texts_are_loaded_and_saved_again(rt: HostRuntime) -> Result<(), Fail> {
    let alloc = rt.alloc();
    let four = worked(alloc)?;
    let again = back(&rt, alloc, &four, 4, TEXT.as_slice())?;
    assert_same!(rt; again.as_slice(), TEXT.as_slice(), "the worked text");
    let nested = nested_text(alloc)?;
    let zeros = Flat::from_values(16, [0i16; 16].to_vec(alloc)?);
    let again = back(&rt, alloc, &zeros, 1, nested.as_slice())?;
    assert_same!(rt;
        again.as_slice(),
        nested.as_slice(),
        "64 splits below each other"
    );
    let drawn = drawn(alloc)?;
    for leaf_size in [1, 3, 40] {
        let bytes = text_of(&rt, alloc, &drawn, 100, leaf_size)?;
        let again = back(&rt, alloc, &drawn, 100, bytes.as_slice())?;
        assert_same!(rt; again.as_slice(), bytes.as_slice(), "leaves of {leaf_size}");
    }
    Ok(())
}

/// 30 series of 64 values that jump about.
fn long(alloc: Global) -> Result<Flat, Fail>
    ensures { IfOk result (λ rows. rows.points ≡ 64) }
{
    let mut values = Vec::new(alloc);
    for i in 0..1920u32 {
        values.push((i.wrapping_mul(2654435761) % 30001) as i16 - 15000)?;
    }
    if values.len() != 1920 {
        return Err(Fail::new("not 1920 values"));
    }
    Ok(Flat::from_values(64, values))
}

#[test]
fn texts_are_loaded_over_long_rows(rt: HostRuntime) -> Result<(), Fail> {
    let alloc = rt.alloc();
    let rows = long(alloc)?;
    for leaf_size in [1, 4] {
        let bytes = text_by(&rt, alloc, &rows, Cuts::new(64, 4), 30, leaf_size)?;
        let again = back(&rt, alloc, &rows, 30, bytes.as_slice())?;
        assert_same!(rt; again.as_slice(), bytes.as_slice(), "leaves of {leaf_size}");
    }
    Ok(())
}

/// The text of the tree of (0,0), (0,20000) and (300,0) by two segments, in leaves of one: below the one split that takes (0,20000) off,
/// eleven more part the other two.
const THREE_POINTS: [u8; 79] = [
    0x49, 0x53, 0x45, 0x58, 1, 0, 2, 0, 2, 0, 0, 0, 3, 0, 0, 0, 1, 0, 0, 0, 1, 0, 0, 0, // header
    3, 0, 0, 0, 3, 1, // root 3, split in segment 1
    1, 0, 1, 0, 1, 1, 1, 0, 1, 1, 1, 0, 1, 1, 1, 0, 1, 1, 1, 0, 3, 0, // eleven splits
    0, 1, 0, 0, 0, 0, 0, 0, 0, // (0,0)
    0, 1, 0, 0, 0, 2, 0, 0, 0, // (300,0)
    0, 1, 0, 0, 0, 1, 0, 0, 0, // (0,20000)
];

#[test]
fn the_tree_of_three_points(rt: HostRuntime) -> Result<(), Fail> {
    let alloc = rt.alloc();
    let values = [0, 0, 0, 20000, 300, 0];
    let rows = Flat::from_values(2, values.to_vec(alloc)?);
    let bytes = text_by(&rt, alloc, &rows, Cuts::new(2, 2), 3, 1)?;
    assert_same!(rt; bytes.as_slice(), THREE_POINTS.as_slice(), "saved");
    let again = back(&rt, alloc, &rows, 3, bytes.as_slice())?;
    assert_same!(rt;
        again.as_slice(),
        THREE_POINTS.as_slice(),
        "loaded and saved again"
    );
    Ok(())
}

/// The text of one series of 16 zeros by 16 segments, in a leaf below 64 splits, four in each segment. The symbol of a zero is 128, so
/// that its first bit is 1 and each further one is 0.
fn nested_text(alloc: Global) -> Result<Vec<u8>, Fail> {
    let head = [
        73, 83, 69, 88, 1, 0, 16, 0, 16, 0, 0, 0, 1, 0, 0, 0, 1, 0, 0, 0, 1, 0, 0, 0,
    ];
    let mut bytes = head.to_vec(alloc)?;
    bytes.extend_from_slice(&[255, 255, 0, 0])?;
    for split in 0..64u8 {
        bytes.extend_from_slice(&[1, split / 4])?;
    }
    bytes.extend_from_slice(&[0, 1, 0, 0, 0, 0, 0, 0, 0])?;
    Ok(bytes)
}

/// 100 series of 4 values that jump about.
fn drawn(alloc: Global) -> Result<Flat, Fail>
    ensures { IfOk result (λ rows. rows.points ≡ 4) }
{
    let mut values = Vec::new(alloc);
    for i in 0..400u32 {
        values.push((i.wrapping_mul(2654435761) % 30001) as i16 - 15000)?;
    }
    if values.len() != 400 {
        return Err(Fail::new("not 400 values"));
    }
    Ok(Flat::from_values(4, values))
}
