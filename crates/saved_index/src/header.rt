//! The header of a saved index: its fields, and the tests that they have to pass.
ghost use Rattle.std.specs.Prelude.{◌≡◌, ◌≤◌, ◌↔◌, true, length, drop, IsSome, IfSome};
ghost use Rattle.byteorder.specs.Endian.{little_number};
ghost use Rattle.saved_index.specs.Fields.{header_of};
ghost use Rattle.saved_index.specs.Reading.{has_header, header_at};

use breakpoints::Table;
use byteorder::{ByteOrder, LittleEndian};
use isax_word::Layout;
use segment_sums::Cuts;
use series_core::MAX_COUNT;
use subtree_build::Settings;

/// How many bytes a header has.
pub(crate) const HEADER_BYTES: usize = 24;

/// What a header says, and how many root children follow it.
#[derive(Clone, Copy)]
pub(crate) struct Fields {
    pub(crate) segments: u32,
    pub(crate) table: Table,
    pub(crate) length: u32,
    pub(crate) count: u32,
    pub(crate) leaf_size: u32,
    pub(crate) roots: u32,
}

/// The fields of the first bytes.
fn fields_of(bytes: &[u8]) -> Fields
    requires { 24 ≤ length bytes.now }
    ensures says { header_of result ≡ header_at bytes.now }
    ensures roots { result.roots ≡ little_number 4 (drop 20 bytes.now) }
{
    Fields {
        segments: u32::from(bytes[6]),
        table: if bytes[7] == 0 {
            Table::Flat
        } else {
            Table::Bent
        },
        length: LittleEndian::read_u32(&bytes[8..]),
        count: LittleEndian::read_u32(&bytes[12..]),
        leaf_size: LittleEndian::read_u32(&bytes[16..]),
        roots: LittleEndian::read_u32(&bytes[20..]),
    }
}

/// Whether the bytes begin with a header.
fn has_header(bytes: &[u8]) -> bool
    ensures { result ≡ has_header bytes.now }
{
    bytes.len() >= HEADER_BYTES
        && bytes[..6] == [73, 83, 69, 88, 1, 0]
        && bytes[7] <= 1
        && fields_of(bytes).keeps_limits()
}

/// The header with which the bytes begin; None where they begin with none.
pub(crate) fn read_header(bytes: &[u8]) -> Option<Fields>
    ensures some { IsSome result ↔ (has_header bytes.now ≡ true) }
    ensures says { IfSome result (λ f. header_of f ≡ header_at bytes.now) }
    ensures roots { IfSome result (λ f. f.roots ≡ little_number 4 (drop 20 bytes.now)) }
    ensures long { IfSome result (λ f. 24 ≤ length bytes.now) }
{
    if !has_header(bytes) {
        return None;
    }
    Some(fields_of(bytes))
}

impl Fields {
    ghost use Rattle.std.specs.Prelude.{◌≡◌};
    ghost use Rattle.saved_index.specs.Reading.{is_header};
    ghost use Rattle.saved_index.specs.Fields.{header_of};
    ghost use Rattle.saved_index.specs.Faults.{layout_for};
    ghost use Rattle.saved_index.specs.Saved.{IsHeader};

    /// The settings that an index of these fields was saved with.
    pub(crate) fn settings(&self) -> Settings
        requires { IsHeader (header_of self.now) }
        ensures layout { result.layout ≡ layout_for (header_of self.now) }
        ensures leaf_size { result.leaf_size ≡ self.now.leaf_size }
    {
        let layout = Layout {
            cuts: Cuts::new(self.length, self.segments),
            table: self.table,
        };
        Settings {
            layout,
            leaf_size: self.leaf_size,
        }
    }

    /// Whether the fields keep the limits of a header.
    fn keeps_limits(&self) -> bool
        ensures { result ≡ is_header (header_of self.now) }
    {
        1 <= self.segments
            && self.segments <= 16
            && self.segments <= self.length
            && self.length <= 65536
            && self.count <= MAX_COUNT
            && 1 <= self.leaf_size
            && self.leaf_size <= 65535
    }
}
