//! The leaves of a tree: as contracts see them, as a subtree grows them, and where an index keeps them.
use isax_word::{Member, Word};
use series_core::Listed;

/// A list of members.
pub type MemberList = Listed<Member>;

/// A leaf: its word, and the series whose full words it contains. An index is seen as having these; what it keeps is
/// the word and the place of the members among those of all leaves.
#[derive(Drop)]
pub struct TreeLeaf {
    /// The word of the leaf.
    pub word: Word,
    /// The members, ascending by number.
    pub members: MemberList,
}

/// A leaf of a subtree that grows: its word, and how many members it has, which lie behind those of the leaf before.
#[derive(Clone, Copy)]
pub(crate) struct GrownLeaf {
    pub(crate) word: Word,
    pub(crate) count: u32,
}

/// A leaf of an index: its word, and where its members lie, from `first` up to but not including `end`.
#[derive(Clone, Copy)]
pub(crate) struct LeafPlace {
    pub(crate) word: Word,
    pub(crate) first: u32,
    pub(crate) end: u32,
}
