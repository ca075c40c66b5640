//! Trees of drawn collections against a plain division of lists, which knows of no index, no chunk and no worker.

ghost use Rattle.std.specs.Prelude.{◌≡◌, IfOk};

use crate::claims::assert_same;
use crate::worked::{collection, is_leaf};
use breakpoints::Table;
use mean_bound::{MeanBox, MeanView};
use outside::NoGate;
use rand_xoshiro::SplitMix64;
use rand_xoshiro::rand_core::{Rng, SeedableRng};
use series_core::{Flat, Rows};
use std::alloc::Global;
use std::test::Fail;
use std::thread::Threads;
use subtree_build::{GROUP, Index, Settings, WIDE_GROUP, build};

/// The length of the drawn series.
const LENGTH: u32 = 18;

/// The symbol of `length` values whose sum is `sum`, counted breakpoint by breakpoint.
fn plain_symbol(table: Table, length: i64, sum: i64) -> u8 {
    let mut count = 0u8;
    for i in 1..256i64 {
        let step = i.wrapping_sub(128);
        let point = match table {
            Table::Flat => step.wrapping_mul(256),
            Table::Bent => step.wrapping_mul(step.wrapping_abs().wrapping_add(64)),
        };
        if length.wrapping_mul(point) <= sum {
            count = count.wrapping_add(1);
        }
    }
    count
}

/// The symbols of a row, one a segment.
fn plain_symbols(alloc: Global, table: Table, row: &[i16], w: usize) -> Result<Vec<u8>, Fail> {
    let mut symbols = Vec::new(alloc);
    if w == 0 {
        return Ok(symbols);
    }
    for j in 0..w {
        let from = j.wrapping_mul(row.len()) / w;
        let to = j.wrapping_add(1).wrapping_mul(row.len()) / w;
        let mut length = 0i64;
        let mut sum = 0i64;
        for value in row.iter().skip(from).take(to.wrapping_sub(from)) {
            length = length.wrapping_add(1);
            sum = sum.wrapping_add(i64::from(*value));
        }
        symbols.push(plain_symbol(table, length, sum))?;
    }
    Ok(symbols)
}

/// A node of the plain division: for each segment a prefix and its number of bits, and the numbers of its members.
#[derive(Drop)]
struct PlainNode {
    word: Vec<(u8, u8)>,
    members: Vec<u32>,
}

/// Whether the bit of series `number` in segment `j` that follows `bits` bits is 1.
fn is_high(symbols: &[Vec<u8>], number: u32, j: usize, bits: u8) -> bool {
    let Some(row) = symbols.get(number as usize) else {
        return false;
    };
    let symbol = row.get(j).copied().unwrap_or(0);
    let Some(shift) = 7u8.checked_sub(bits) else {
        return false;
    };
    symbol.wrapping_shr(u32::from(shift)) & 1 == 1
}

/// The segment in which a part is split: the evenest, of these the one of fewest bits, of these the first.
fn plain_segment(part: &PlainNode, symbols: &[Vec<u8>]) -> Option<usize> {
    let mut best: Option<(u64, u8, usize)> = None;
    for (j, (_, bits)) in part.word.iter().enumerate() {
        if *bits >= 8 {
            continue;
        }
        let mut high = 0u64;
        let mut size = 0u64;
        for number in &part.members {
            size = size.wrapping_add(1);
            if is_high(symbols, *number, j, *bits) {
                high = high.wrapping_add(2);
            }
        }
        let uneven = high.abs_diff(size);
        let better = match best {
            Some((least, fewest, _)) => uneven < least || (uneven == least && *bits < fewest),
            None => true,
        };
        if better {
            best = Some((uneven, *bits, j));
        }
    }
    best.map(|(_, _, j)| j)
}

/// One half of a part that is split in segment `j`.
fn plain_child(
    alloc: Global,
    part: &PlainNode,
    symbols: &[Vec<u8>],
    j: usize,
    high: bool,
) -> Result<PlainNode, Fail> {
    let mut word = Vec::new(alloc);
    let mut split = 8u8;
    for (i, (prefix, bits)) in part.word.iter().enumerate() {
        if i == j {
            split = *bits;
            let longer = prefix.wrapping_mul(2).wrapping_add(u8::from(high));
            word.push((longer, bits.wrapping_add(1)))?;
        } else {
            word.push((*prefix, *bits))?;
        }
    }
    let mut members = Vec::new(alloc);
    for number in &part.members {
        if is_high(symbols, *number, j, split) == high {
            members.push(*number)?;
        }
    }
    Ok(PlainNode { word, members })
}

/// The number that the first bits of some symbols make.
fn plain_root(symbols: &[u8]) -> u32 {
    let mut root = 0u32;
    for symbol in symbols {
        root = root.wrapping_mul(2).wrapping_add(u32::from(*symbol >> 7));
    }
    root
}

/// The least root number from `least` on that some series has.
fn next_root(symbols: &[Vec<u8>], least: u32) -> Option<u32> {
    let mut next = None;
    for row in symbols {
        let root = plain_root(row);
        let before = match next {
            Some(found) => root < found,
            None => true,
        };
        if root >= least && before {
            next = Some(root);
        }
    }
    next
}

/// The part of a root number: its one-bit word, and the series whose first bits make that number.
fn root_part(alloc: Global, symbols: &[Vec<u8>], root: u32, w: u32) -> Result<PlainNode, Fail> {
    let mut word = Vec::new(alloc);
    for j in 0..w {
        let bit = root.wrapping_shr(w.wrapping_sub(1).wrapping_sub(j)) & 1;
        word.push((u8::from(bit == 1), 1))?;
    }
    let mut members = Vec::new(alloc);
    for (number, row) in symbols.iter().enumerate() {
        if plain_root(row) == root {
            members.push(u32::try_from(number).unwrap_or(0))?;
        }
    }
    Ok(PlainNode { word, members })
}

/// Compares the leaves below a part with those of the index from number `l` on, and tells the number behind them.
fn compare_below(
    alloc: Global,
    index: &Index,
    root: PlainNode,
    symbols: &[Vec<u8>],
    leaf_size: usize,
    l: u32,
) -> Result<u32, Fail> {
    let mut next = l;
    let mut parts = Vec::new(alloc);
    parts.push(root)?;
    for _step in 0..1_000_000u32 {
        let Some(part) = parts.pop() else {
            return Ok(next);
        };
        if part.members.is_empty() {
            continue;
        }
        let split = if part.members.len() <= leaf_size {
            None
        } else {
            plain_segment(&part, symbols)
        };
        if let Some(j) = split {
            parts.push(plain_child(alloc, &part, symbols, j, true)?)?;
            parts.push(plain_child(alloc, &part, symbols, j, false)?)?;
        } else {
            if !is_leaf(index, next, &part.word, &part.members) {
                return Err(Fail::new("another leaf"));
            }
            next = next.wrapping_add(1);
        }
    }
    Err(Fail::new("the plain division has no end"))
}

/// `count` series of values from -`spread` to `spread`.
fn draw(alloc: Global, seed: u64, count: u32, spread: u64) -> Result<Flat, Fail>
    ensures { IfOk result (λ rows. rows.points ≡ 18) }
{
    let mut rng = SplitMix64::from_seed(seed.to_le_bytes());
    let mut values = Vec::new(alloc);
    for _series in 0..count {
        for _value in 0..LENGTH {
            let size = i16::try_from(rng.next_u64() % (spread % 20000 + 1)).unwrap_or(0);
            let low = rng.next_u64() % 2 == 0;
            values.push(if low { size.wrapping_neg() } else { size })?;
        }
    }
    collection(alloc, LENGTH, &values)
}

/// Builds the tree of drawn series, and compares its leaves with the plain division.
fn compare<H: Threads + Sync>(
    rt: &H,
    alloc: Global,
    rows: &Flat,
    table: Table,
    w: u32,
    leaf_size: u32,
    workers: u32,
) -> Result<(), Fail>
    requires { rows.now.points ≡ 18 }
{
    if w < 1 || w > 16 || workers < 1 || workers > 64 {
        return Err(Fail::new("no such layout"));
    }
    let settings = Settings::new(LENGTH, w, table, leaf_size);
    let Ok(index) = build(rt, alloc, rows, &settings, workers, &NoGate) else {
        return Err(Fail::new("no memory for the tree"));
    };
    let mut symbols = Vec::new(alloc);
    for i in 0..rows.count() {
        symbols.push(plain_symbols(alloc, table, rows.row(i), w as usize)?)?;
    }
    let mut leaves = 0u32;
    let mut least = 0u32;
    for _root in 0..=rows.count() {
        let Some(root) = next_root(&symbols, least) else {
            break;
        };
        let part = root_part(alloc, &symbols, root, w)?;
        leaves = compare_below(alloc, &index, part, &symbols, leaf_size as usize, leaves)?;
        least = root.wrapping_add(1);
    }
    if index.leaf_count() != leaves {
        return Err(Fail::new("more leaves"));
    }
    Ok(())
}

#[test]
fn drawn_collections_have_the_plain_tree(rt: HostRuntime) -> Result<(), Fail> {
    let alloc = rt.alloc();
    for w in 1..=16u32 {
        for leaf_size in 1..=5u32 {
            let seed = u64::from(w.wrapping_mul(8).wrapping_add(leaf_size));
            let spread = [3u64, 300, 19000][(seed % 3) as usize];
            let rows = draw(alloc, seed, 20, spread)?;
            let workers = 1 + (seed % 4) as u32;
            compare(&rt, alloc, &rows, Table::Flat, w, leaf_size, workers)?;
            compare(&rt, alloc, &rows, Table::Bent, w, leaf_size, workers)?;
        }
    }
    Ok(())
}

/// The bound of a box that there is, else 0.
fn bound_of(view: &MeanView, own: Option<&MeanBox>) -> u64 {
    match own {
        Some(own) => view.bound_box(own),
        None => 0,
    }
}

#[test]
fn a_group_is_no_farther_than_its_leaves(rt: HostRuntime) -> Result<(), Fail> {
    let rows = draw(rt.alloc(), 5, 700, 19000)?;
    let settings = Settings::new(LENGTH, 16, Table::Bent, 1);
    let Ok(index) = build(&rt, rt.alloc(), &rows, &settings, 1, &NoGate) else {
        return Err(Fail::new("no memory for the tree"));
    };
    let view = MeanView::new(&settings.layout.cuts, &[0; LENGTH as usize]);
    let mut far = 0u32;
    for l in 0..index.leaf_count() {
        let own = bound_of(&view, index.leaf_box(l));
        let group = bound_of(&view, index.group_box(l / GROUP));
        let wide = bound_of(&view, index.wide_group_box(l / WIDE_GROUP));
        assert_same!(rt; wide <= group && group <= own, true, "leaf {l}: {wide}, {group}, {own}");
        far = far.wrapping_add(u32::from(group > 0));
    }
    assert_same!(rt; index.leaf_count() > WIDE_GROUP, true, "leaves of two wide groups");
    assert_same!(rt; far > 0, true, "some group is far");
    Ok(())
}
