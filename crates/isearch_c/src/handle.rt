//! A value that C holds by a pointer and never reads. Its one rule: what a handle owns is the box at its pointer, or nothing.
ghost use Rattle.std.specs.Prelude.{◌≡◌, Option, None, Some};
ghost use Rattle.std.specs.Coded.{codes};
ghost use Rattle.isearch_c.specs.contracts.held.Held as row;
ghost use Rattle.isearch_c.specs.declared.held.Held.{Held};
ghost use Rattle.isearch_c.specs.Handles.{IsFull, held_at};

use crate::held::Held;
use crate::pieces::Pieces;
use std::alloc::Global;
use std::marker::Model;
use std::ptr::null_mut;

/// A box as its pointer, or nothing. Letting one go frees nothing.
#[repr(C)]
#[derive(Drop)]
pub struct Handle {
    at: *mut u8,
    alloc: Global,
    pub ghost held: { Option Held } by { Prim.hlevel (codes, row.the_row.coded) },
}

impl Model for Handle {
    ghost also_owns = { λ h. held_at h.alloc h.at h.held };
}

/// What it owns may be used and freed by whichever thread it moves to.
unsafe impl Send for Handle {}

impl Handle {
    /// There is nothing, wherever the pointer points.
    fn none_at(at: *mut u8, alloc: Global) -> Handle
        ensures { result.held ≡ None }
    {
        Handle { at, alloc }
    }

    /// There is nothing.
    pub fn empty(alloc: Global) -> Handle
        ensures { result.held ≡ None }
    {
        let at: *mut u8 = null_mut();
        Handle::none_at(at, alloc)
    }

    /// What the pieces of a box own is owned here.
    fn of_pieces(pieces: Pieces<Held, Global>) -> Handle
        ensures { result.held ≡ Some pieces.value }
    {
        let Pieces { at, alloc } = pieces;
        Handle {
            at: at as *mut u8,
            alloc,
        }
    }

    /// And there again.
    fn into_pieces(self) -> Pieces<Held, Global>
        requires { IsFull self.held }
        ensures { self.held ≡ Some result.value }
    {
        let Handle { at, alloc } = self;
        Pieces {
            at: at as *mut Held,
            alloc,
        }
    }

    /// The box as its pointer.
    pub fn of(value: Box<Held>) -> Handle
        ensures { result.held ≡ Some value.value }
    {
        Handle::of_pieces(Pieces::of_box(value))
    }

    /// The box again.
    pub fn into_box(self) -> Box<Held>
        requires { IsFull self.held }
        ensures { self.held ≡ Some result.value }
    {
        self.into_pieces().into_box()
    }
}
