//! The nodes of a tree: a node is a leaf, or is split in one segment.

/// A node of the tree.
#[derive(Drop)]
pub enum Node {
    /// A leaf, by its number.
    Leaf(u32),
    /// A node that is split in one segment.
    Split {
        /// The segment in which the children's words have one bit more.
        segment: u32,
        /// The members whose next bit is 0; None where no member's next bit is 0.
        low: Option<Box<Node>>,
        /// The members whose next bit is 1; None where no member's next bit is 1.
        high: Option<Box<Node>>,
    },
}
