//! Worked trees, leaf for leaf, whatever the number of workers; and workers that must meet.
ghost use Rattle.std.specs.Prelude.{◌≡◌, IfOk};

use crate::claims::assert_same;
use breakpoints::Table;
use lower_bound::QueryView;
use outside::{Gate, NoGate};
use series_core::{Flat, Rows};
use std::alloc::Global;
use std::sync::atomic::{AtomicBool, AtomicU64, Ordering};
use std::test::Fail;
use std::thread::Threads;
use subtree_build::{Index, Settings, build, build_alone, build_bare};

/// How often a thread looks for another before it gives up.
const LOOKS: u64 = 20_000_000_000;

/// A tree that is known: its name, its collection, its settings, its leaves and where a query starts.
#[derive(Drop)]
struct Known<'a> {
    name: &'a str,
    length: u32,
    values: &'a [i16],
    segments: u32,
    leaf_size: u32,
    leaves: &'a [(&'a [(u8, u8)], &'a [u32])],
    query: &'a [i16],
    start: u32,
}

/// The series of a length that lie in these values.
pub fn collection(alloc: Global, length: u32, values: &[i16]) -> Result<Flat, Fail>
    ensures { IfOk result (λ rows. rows.points ≡ length) }
{
    let mut all = Vec::new(alloc);
    for value in values {
        all.push(*value)?;
    }
    if length == 0 || length > 65536 || all.len() > 100_000 {
        return Err(Fail::new("no such collection"));
    }
    if all.len() / length as usize * length as usize != all.len() {
        return Err(Fail::new("the last series is not whole"));
    }
    Ok(Flat::from_values(length, all))
}

/// Whether leaf `l` has the word of these prefixes and numbers of bits, and the members of these numbers.
pub fn is_leaf(index: &Index, l: u32, parts: &[(u8, u8)], numbers: &[u32]) -> bool {
    if l >= index.leaf_count() {
        return false;
    }
    let word = index.leaf_word(l);
    if word.segments() as usize != parts.len() {
        return false;
    }
    for j in 0..word.segments() {
        if parts.get(j as usize) != Some(&(word.prefix(j), word.bits(j))) {
            return false;
        }
    }
    let members = index.leaf_members(l);
    if members.len() != numbers.len() {
        return false;
    }
    for (member, number) in members.iter().zip(numbers) {
        if member.number != *number {
            return false;
        }
    }
    true
}

/// Whether the index has the leaves that are known, in their order.
fn has_leaves(index: &Index, tree: &Known) -> bool {
    if index.leaf_count() as usize != tree.leaves.len() {
        return false;
    }
    for (l, (parts, numbers)) in tree.leaves.iter().enumerate() {
        if !is_leaf(index, l as u32, parts, numbers) {
            return false;
        }
    }
    true
}

/// Whether a known tree that 1, 2 and 64 workers build, one with nothing beside it, and one that wants no threads, has its leaves, and the
/// query starts where it is to.
fn grows<H: Threads + Sync>(rt: &H, alloc: Global, tree: &Known) -> Result<bool, Fail> {
    let rows = collection(alloc, tree.length, tree.values)?;
    let some = 1 <= tree.segments && tree.segments <= 16 && tree.segments <= tree.length;
    if !some || tree.length > 65536 || tree.query.len() != tree.length as usize {
        return Err(Fail::new("no such layout"));
    }
    let settings = Settings::new(tree.length, tree.segments, Table::Flat, tree.leaf_size);
    let view = QueryView::new(&settings.layout, tree.query);
    for workers in [1u32, 2, 64] {
        let Ok(index) = build(rt, alloc, &rows, &settings, workers, &NoGate) else {
            return Err(Fail::new("no memory for the tree"));
        };
        if !has_leaves(&index, tree) {
            return Ok(false);
        }
        if index.segments() == tree.segments && index.start_leaf(&view) != Some(tree.start) {
            return Ok(false);
        }
    }
    let Ok(bare) = build_bare(rt, alloc, &rows, &settings, 2, &NoGate) else {
        return Err(Fail::new("no memory for the bare tree"));
    };
    if !has_leaves(&bare, tree) || bare.has_means() || bare.has_codes() {
        return Ok(false);
    }
    let Ok(alone) = build_alone(alloc, &rows, &settings) else {
        return Err(Fail::new("no memory for the tree"));
    };
    Ok(has_leaves(&alone, tree))
}

/// Trees that are known.
const KNOWN: [Known; 4] = [
    Known {
        name: "two roots",
        length: 4,
        values: &[0, 0, 0, 0, 10, 10, 10, 10, -10, -10, -10, -10, 0, 0, 10, 10],
        segments: 2,
        leaf_size: 1000,
        leaves: &[(&[(0, 1), (0, 1)], &[2]), (&[(1, 1), (1, 1)], &[0, 1, 3])],
        query: &[1, 1, 1, 1],
        start: 1,
    },
    Known {
        name: "a leaf of any size at the end of a chain",
        length: 4,
        values: &[0; 12],
        segments: 2,
        leaf_size: 1,
        leaves: &[(&[(128, 8), (128, 8)], &[0, 1, 2])],
        query: &[0, 0, 0, 0],
        start: 0,
    },
    Known {
        name: "segments of two lengths",
        length: 5,
        values: &[0, 0, 0, 0, 0, -1, 0, 0, 0, -1],
        segments: 2,
        leaf_size: 1000,
        leaves: &[(&[(0, 1), (0, 1)], &[1]), (&[(1, 1), (1, 1)], &[0])],
        query: &[-1, 0, 0, 0, -1],
        start: 0,
    },
    Known {
        name: "splits in turn",
        length: 2,
        values: &[0, 0, 0, 20000, 300, 0],
        segments: 2,
        leaf_size: 1,
        leaves: &[
            (&[(128, 8), (32, 6)], &[0]),
            (&[(129, 8), (32, 6)], &[2]),
            (&[(1, 1), (3, 2)], &[1]),
        ],
        query: &[0, 0],
        start: 0,
    },
];

#[test]
fn known_trees_grow(rt: HostRuntime) -> Result<(), Fail> {
    for tree in &KNOWN {
        assert_same!(rt; grows(&rt, rt.alloc(), tree)?, true, "{}", tree.name);
    }
    Ok(())
}

#[test]
fn no_series_has_no_tree(rt: HostRuntime) -> Result<(), Fail> {
    let rows = collection(rt.alloc(), 4, &[])?;
    let settings = Settings::new(4, 2, Table::Bent, 1);
    let Ok(index) = build(&rt, rt.alloc(), &rows, &settings, 3, &NoGate) else {
        return Err(Fail::new("no memory for the tree"));
    };
    assert_same!(rt; (index.root_count(), index.leaf_count()), (0, 0), "nothing");
    let view = QueryView::new(&settings.layout, &[0, 0, 0, 0]);
    assert_same!(rt; index.start_leaf(&view), None, "no start");
    Ok(())
}

/// A gate that holds workers 0 and 1 at their first turns until the other has come as often.
#[derive(Drop)]
struct Meeting {
    first: AtomicU64,
    second: AtomicU64,
    missed: AtomicBool,
}

impl Gate for Meeting {
    fn pass(&self, worker: u32, turn: u64) {
        if turn != 0 || worker > 1 {
            return;
        }
        let (own, other) = if worker == 0 {
            (&self.first, &self.second)
        } else {
            (&self.second, &self.first)
        };
        let come = own.fetch_add(1, Ordering::SeqCst);
        for _look in 0..LOOKS {
            if other.load(Ordering::SeqCst) > come {
                return;
            }
        }
        self.missed.store(true, Ordering::SeqCst);
    }
}

#[test]
fn two_workers_meet_at_the_gate(rt: HostRuntime) -> Result<(), Fail> {
    let gate = Meeting {
        first: AtomicU64::new(0),
        second: AtomicU64::new(0),
        missed: AtomicBool::new(false),
    };
    let rows = collection(rt.alloc(), 1, &[5, -5, 7])?;
    let settings = Settings::new(1, 1, Table::Flat, 10);
    if build(&rt, rt.alloc(), &rows, &settings, 2, &gate).is_err() {
        return Err(Fail::new("no memory for the tree"));
    }
    let came = (
        gate.first.load(Ordering::SeqCst),
        gate.second.load(Ordering::SeqCst),
    );
    assert_same!(rt; came, (1, 1), "each comes once at its turn 0");
    assert_same!(rt; gate.missed.load(Ordering::SeqCst), false, "the looks ran out");
    Ok(())
}

/// Rows of which two numbers are held until both were asked for.
#[derive(Drop)]
struct Watched<'a> {
    rows: &'a Flat,
    asked: [AtomicBool; 2],
    missed: AtomicBool,
}

impl Watched<'_> {
    /// Raises the flag of one of the held numbers, and looks for the other's.
    fn meet(&self, own: &AtomicBool, other: &AtomicBool) {
        own.store(true, Ordering::SeqCst);
        for _look in 0..LOOKS {
            if other.load(Ordering::SeqCst) {
                return;
            }
        }
        self.missed.store(true, Ordering::SeqCst);
    }
}

impl Rows for Watched<'_> {
    ghost collection = { λ w. w.rows.now };

    fn count(&self) -> u32 {
        self.rows.count()
    }

    fn length(&self) -> u32 {
        self.rows.length()
    }

    fn row(&self, i: u32) -> &[i16] {
        let [first, second] = &self.asked;
        if i == 0 {
            self.meet(first, second);
        }
        if i == 256 {
            self.meet(second, first);
        }
        self.rows.row(i)
    }
}

#[test]
fn two_chunks_are_read_at_once(rt: HostRuntime) -> Result<(), Fail> {
    let rows = collection(rt.alloc(), 1, &[0; 512])?;
    let watched = Watched {
        rows: &rows,
        asked: [AtomicBool::new(false), AtomicBool::new(false)],
        missed: AtomicBool::new(false),
    };
    let settings = Settings::new(1, 1, Table::Flat, 1000);
    let Ok(index) = build(&rt, rt.alloc(), &watched, &settings, 2, &NoGate) else {
        return Err(Fail::new("no memory for the tree"));
    };
    assert_same!(rt; index.leaf_count(), 1, "one leaf");
    if index.leaf_count() == 1 {
        assert_same!(rt; index.leaf_members(0).len(), 512, "all series in it");
    }
    assert_same!(rt; watched.missed.load(Ordering::SeqCst), false, "the looks ran out");
    Ok(())
}
