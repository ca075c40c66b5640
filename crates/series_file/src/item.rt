//! The items of a series file: values of two bytes and labels of eight, the lowest byte first.

ghost use Rattle.std.specs.Prelude.{◌≡◌, ◌+◌, ◌*◌, ◌/◌, ◌<◌, ◌≤◌, ℕ, List, ◌++◌, length, OnOk};
ghost use Rattle.series_file.specs.Items.{items_from, value_at, label_at};

use byteorder::{ByteOrder, LittleEndian};

/// An item of fixed size in a file.
pub trait Item: Copy {
    ghost at: { List ℕ → Self };

    ghost SIZE: { ℕ };

    /// How many bytes an item has.
    const SIZE: usize;

    /// An item to fill room with.
    const ZERO: Self;

    /// Decodes the items that the bytes hold.
    fn decode(bytes: &[u8], into: &mut [Self])
        requires { length bytes.now ≡ SIZE * length into.old }
        ensures { into.new ≡ items_from at SIZE (length into.old) bytes.now };

    ghost sized: { (0 < SIZE) × (SIZE < 256) };

    ghost reads_front: { (xs ys : List ℕ) → SIZE ≤ length xs → at (xs ++ ys) ≡ at xs };
}

impl Item for i16 {
    ghost at = { value_at };

    ghost SIZE = { 2 };

    ghost use Rattle.std.proofs.Common.{arith};
    ghost use Rattle.series_file.specs.Items.{value_at-append};

    ghost sized = { (Prim.omega arith, Prim.omega arith) };

    ghost reads_front = { value_at-append };

    const SIZE: usize = 2;

    const ZERO: i16 = 0;

    fn decode(bytes: &[u8], into: &mut [i16]) {
        LittleEndian::read_i16_into(bytes, into);
    }
}

impl Item for u64 {
    ghost at = { label_at };

    ghost SIZE = { 8 };

    ghost use Rattle.std.proofs.Common.{arith};
    ghost use Rattle.series_file.specs.Items.{label_at-append};

    ghost sized = { (Prim.omega arith, Prim.omega arith) };

    ghost reads_front = { label_at-append };

    const SIZE: usize = 8;

    const ZERO: u64 = 0;

    fn decode(bytes: &[u8], into: &mut [u64]) {
        LittleEndian::read_u64_into(bytes, into);
    }
}
