//! Writing the text of an index: the header, and then each root child, its root number and its nodes from the top down.
ghost use Rattle.std.specs.Prelude.{◌≡◌, ◌++◌, ◌^◌, ◌<◌, ◌≤◌, IfOk, OnOk, length, [], ◌∷◌};
ghost use Rattle.std.specs.List.{All};
ghost use Rattle.subtree_build.specs.Index.{StandsUnder, leaf_at};
ghost use Rattle.subtree_build.specs.Outline.{outline};
ghost use Rattle.saved_index.specs.Saved.{header_text, node_text, table_byte};
ghost use Rattle.saved_index.specs.IndexText.{CanSave, IndexText, filled, header_for};
ghost use Rattle.subtree_build.specs.Tree.{leaf};

use breakpoints::Table;
use isax_word::{Word, child};
use outside::NoMemory;
use std::alloc::Global;
use subtree_build::{Index, Node, Settings};

/// The text of an index that fits a collection of `count` series under these settings.
pub fn save(
    alloc: Global,
    settings: &Settings,
    count: u32,
    index: &Index,
) -> Result<Vec<u8>, NoMemory>
    requires { CanSave settings.now count index.now }
    ensures { IfOk result (λ bytes. IndexText bytes.items settings.now count index.now) }
{
    // for the fact that the cuts divide a series
    let _segments = settings.layout.cuts.segments();
    let mut bytes = Vec::new(alloc);
    put_header(settings, count, index.root_count(), &mut bytes)?;
    for i in 0..index.root_count() {
        let word = index.root_word(i);
        bytes.extend_from_slice(&index.root_number(i).to_le_bytes())?;
        put_node(index, &word, index.root(i), &mut bytes)?;
    }
    Ok(bytes)
}

/// The byte of a table.
fn table_byte(table: Table) -> u8
    ensures { result ≡ table_byte table }
{
    match table {
        Table::Flat => 0,
        Table::Bent => 1,
    }
}

/// Appends the header.
fn put_header(
    settings: &Settings,
    count: u32,
    roots: u32,
    bytes: &mut Vec<u8>,
) -> Result<(), NoMemory>
    ensures { OnOk result (bytes.new.items ≡ bytes.old.items ++ header_text (header_for settings.now count) roots) }
{
    let cuts = &settings.layout.cuts;
    let table = table_byte(settings.layout.table);
    bytes.extend_from_slice(&[73, 83, 69, 88, 1, 0])?;
    bytes.push(cuts.segments() as u8)?;
    bytes.push(table)?;
    bytes.extend_from_slice(&cuts.length().to_le_bytes())?;
    bytes.extend_from_slice(&count.to_le_bytes())?;
    bytes.extend_from_slice(&settings.leaf_size.to_le_bytes())?;
    bytes.extend_from_slice(&roots.to_le_bytes())?;
    Ok(())
}

/// Appends a leaf: the numbers of its members.
fn put_leaf(index: &Index, l: u32, bytes: &mut Vec<u8>) -> Result<(), NoMemory>
    requires leaf { l < length index.now.leaves }
    requires few { length (leaf_at index.now.leaves l).members < 2 ^ 32 }
    ensures { OnOk result (bytes.new.items ≡ bytes.old.items ++ node_text (filled index.now.leaves (leaf l))) }
{
    let members = index.leaf_members(l);
    bytes.push(0)?;
    bytes.extend_from_slice(&(members.len() as u32).to_le_bytes())?;
    for member in members {
        bytes.extend_from_slice(&member.number.to_le_bytes())?;
    }
    Ok(())
}

/// Appends the two bytes of a split.
fn put_split(kind: u8, segment: u32, bytes: &mut Vec<u8>) -> Result<(), NoMemory>
    requires { segment < 16 }
    ensures { OnOk result (bytes.new.items ≡ bytes.old.items ++ kind ∷ segment ∷ []) }
{
    bytes.push(kind)?;
    bytes.push(segment as u8)?;
    Ok(())
}

/// Appends a node of this word and all below it.
fn put_node(index: &Index, word: &Word, node: &Node, bytes: &mut Vec<u8>) -> Result<(), NoMemory>
    requires stands { StandsUnder index.now.leaves word.now (outline node.now) }
    requires few { All (λ x. length x.members < 2 ^ 32) index.now.leaves }
    ensures { OnOk result (bytes.new.items ≡ bytes.old.items ++ node_text (filled index.now.leaves (outline node.now))) }
{
    // for the fact that a word has at most 16 segments
    let _segments = word.segments();
    let (segment, low, high) = match node {
        Node::Leaf(l) => return put_leaf(index, *l, bytes),
        Node::Split { segment, low, high } => (*segment, low, high),
    };
    match (low, high) {
        (Some(low), Some(high)) => {
            put_split(3, segment, bytes)?;
            put_node(index, &child(word, segment, false), low, bytes)?;
            put_node(index, &child(word, segment, true), high, bytes)
        }
        (Some(low), None) => {
            put_split(1, segment, bytes)?;
            put_node(index, &child(word, segment, false), low, bytes)
        }
        (None, Some(high)) => {
            put_split(2, segment, bytes)?;
            put_node(index, &child(word, segment, true), high, bytes)
        }
        (None, None) => unreachable!(),
    }
}
