//! Nodes that are linked from the first to the last, each in a block of its own.
ghost use Rattle.std.specs.Prelude.{◌≡◌, ◌<◌, List, [], ◌∷◌, ◌++◌, length};
ghost use Rattle.block_list.specs.Links.{Link, links_of, IsLinked};
ghost use Rattle.block_list.specs.Ownership.{chain_owns, chain_lent};

use std::alloc::Allocator;
use std::marker::{Model, Send, Sync};
use std_alloc::room::Vacant;

mod lends;

/// A node: the way to the next, the element, and the handle that its block goes back to.
/// The last node's `next` means nothing.
pub struct Node<T, A> {
    next: *const Node<T, A>,
    elem: T,
    alloc: A,
}

/// The ends of a row of nodes; with no node they mean nothing.
/// `blocks` says of each node where it lies, what its `next` is, and its handle.
pub struct Nodes<T, A: Allocator> {
    head: *const Node<T, A>,
    tail: *const Node<T, A>,
    ghost items: { List T },
    ghost blocks: { List (Link × A) },
    ghost counted: { length blocks ≡ length items },
    ghost linked: { ∥ IsLinked head tail (links_of blocks) ∥₁ },
}

impl<T, A: Allocator> Model for Nodes<T, A> {
    ghost also_owns = { λ n. chain_owns T.row A.row A.dealloc_token n.blocks n.items };

    ghost also_shares = { λ n _ κ. chain_lent T.row (links_of n.blocks) n.items κ };
}

unsafe impl<T: Send, A: Allocator + Send> Send for Nodes<T, A> {}

unsafe impl<T: Sync, A: Allocator> Sync for Nodes<T, A> {}

impl<T, A: Allocator> Nodes<T, A> {
    /// No node.
    pub fn new() -> Nodes<T, A>
        ensures { result.items ≡ [] }
    {
        let none: [u8; 0] = [];
        let nowhere = &raw const none as *const Node<T, A>;
        Nodes {
            head: nowhere,
            tail: nowhere,
        }
    }

    /// One node in this room.
    pub fn one(room: Vacant<Node<T, A>, A>, elem: T) -> Nodes<T, A>
        ensures { result.items ≡ elem ∷ [] }
    {
        let Vacant { ptr, alloc } = room;
        unsafe {
            ptr.write(Node {
                next: ptr,
                elem,
                alloc,
            });
        }
        Nodes {
            head: ptr,
            tail: ptr,
        }
    }

    /// Puts the other nodes behind these.
    pub fn join(&mut self, other: &mut Nodes<T, A>)
        requires { (0 < length self.old.items) × (0 < length other.old.items) }
        ensures { (self.new.items ≡ self.old.items ++ other.old.items) × (other.new.items ≡ []) }
    {
        let tail = self.tail.cast_mut();
        unsafe {
            (*tail).next = other.head;
        }
        self.tail = other.tail;
    }

    /// Takes the first node out: its element, and its block.
    pub fn unlink_front(&mut self) -> (T, Vacant<Node<T, A>, A>)
        requires { 0 < length self.old.items }
        ensures { self.old.items ≡ result.0 ∷ self.new.items }
    {
        let ptr = self.head.cast_mut();
        unsafe {
            self.head = (*ptr).next;
            let elem = (&raw const (*ptr).elem).read();
            let alloc = (&raw const (*ptr).alloc).read();
            (elem, Vacant { ptr, alloc })
        }
    }

    /// Ends a row that has no node left.
    pub fn end(self)
        requires { self.items ≡ [] }
    {
        let Nodes { head: _, tail: _ } = self;
    }
}
