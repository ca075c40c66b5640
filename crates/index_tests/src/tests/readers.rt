//! The reader of `saved_index` beside the plain one: where it loads a text, the plain reader tells the same tree; where it refuses
//! one, the plain test has the same fault.
use crate::tests::plain_fault::plain_fault;
use crate::tests::plain_reader::plain_read;
use breakpoints::Table;
use outside::{Files, MemFiles};
use saved_index::{IndexFault, LoadedIndex, load, load_with};
use series_core::{Flat, Rows};
use std::alloc::Global;
use std::test::Fail;
use std::thread::Threads;
use subtree_build::{Index, Node};

/// Loads these bytes over rows, with tables by two workers or with none by five, from pieces of 16 bytes of which the reads that are listed
/// fail.
pub(crate) fn loaded<H: Threads + Sync>(
    rt: &H,
    alloc: Global,
    rows: &Flat,
    bytes: &[u8],
    fail_reads: &[u64],
    tables: bool,
) -> Result<Result<LoadedIndex, IndexFault>, Fail> {
    let mut files = MemFiles::new(alloc, 16, Vec::new(alloc), fail_reads.to_vec(alloc)?);
    files.hold("index", bytes)?;
    files.open_file("index")?;
    if tables {
        Ok(load(rt, alloc, &mut files, rows, 2))
    } else {
        Ok(load_with(rt, alloc, &mut files, rows, 5, false))
    }
}

/// In what the two readers differ on a text over rows of these values, in series of 4; None where they agree.
pub(crate) fn difference<H: Threads + Sync>(
    rt: &H,
    alloc: Global,
    rows: &Flat,
    values: &[i16],
    bytes: &[u8],
) -> Result<Option<&'static str>, Fail> {
    let want = plain_fault(alloc, bytes, values, 4)?;
    let found = match loaded(rt, alloc, rows, bytes, &[], true)? {
        Ok(found) => found,
        Err(fault) if want == Some(fault) => return Ok(None),
        Err(_) => return Ok(Some("another fault, or none, was wanted")),
    };
    if want.is_some() {
        return Ok(Some("what has a fault was loaded"));
    }
    let Some(told) = plain_read(alloc, bytes)? else {
        return Ok(Some("what is no text was loaded"));
    };
    let own = tell_all(alloc, &found, rows.count())?;
    if own.as_slice() != told.as_slice() {
        return Ok(Some("another tree was loaded"));
    }
    Ok(None)
}

/// Tells what was loaded over `count` series, as the plain reader does.
fn tell_all(alloc: Global, loaded: &LoadedIndex, count: u32) -> Result<Vec<u32>, Fail> {
    let LoadedIndex { settings, index } = loaded;
    let layout = &settings.layout;
    let table = match layout.table {
        Table::Flat => 0,
        Table::Bent => 1,
    };
    let head = [
        layout.cuts.segments(),
        table,
        layout.cuts.length(),
        count,
        settings.leaf_size,
    ];
    let mut told = head.to_vec(alloc)?;
    for i in 0..index.root_count() {
        told.push(index.root_number(i))?;
        tell(index.root(i), index, &mut told)?;
    }
    Ok(told)
}

/// Tells a node and all below it.
fn tell(node: &Node, index: &Index, told: &mut Vec<u32>) -> Result<(), Fail> {
    let (segment, low, high) = match node {
        Node::Leaf(l) => return tell_leaf(index, *l, told),
        Node::Split { segment, low, high } => (*segment, low, high),
    };
    told.push(if high.is_none() {
        1
    } else if low.is_none() {
        2
    } else {
        3
    })?;
    told.push(segment)?;
    if let Some(low) = low {
        tell(low, index, told)?;
    }
    if let Some(high) = high {
        tell(high, index, told)?;
    }
    Ok(())
}

/// Tells a leaf.
fn tell_leaf(index: &Index, l: u32, told: &mut Vec<u32>) -> Result<(), Fail> {
    if l >= index.leaf_count() {
        return Err(Fail::new("a node of no leaf"));
    }
    let members = index.leaf_members(l);
    told.push(0)?;
    told.push(u32::try_from(members.len()).unwrap_or(0))?;
    for member in members {
        told.push(member.number)?;
    }
    Ok(())
}
