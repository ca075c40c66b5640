//! A walk over nodes that are lent: where it stands, and what is left.
ghost use Rattle.std.specs.Prelude.{◌≡◌, ◌<◌, List, ◌∷◌, length};
ghost use Rattle.block_list.specs.Links.{Link, Leads};
ghost use Rattle.block_list.specs.Ownership.{chain_lent};

use std::marker::{Model, PhantomData};

/// What a node begins with; fields lie in order. It is only ever seen through a cast pointer.
pub struct Front<T> {
    pub(crate) next: *const Front<T>,
    pub(crate) elem: T,
}

/// The nodes that a walk has left; with none left `at` means nothing.
#[derive(Drop)]
pub struct Walk<'a, T> {
    pub(crate) at: *const Front<T>,
    pub(crate) mark: PhantomData<&'a T>,
    ghost items: { List T },
    ghost links: { List Link },
    ghost counted: { length links ≡ length items },
    ghost linked: { ∥ Leads at links ∥₁ },
}

impl<'a, T> Model for Walk<'a, T> {
    ghost also_owns = { λ w. chain_lent T.row w.links w.items 'a };
}

impl<'a, T> Walk<'a, T> {
    /// The next element.
    pub fn step(&mut self) -> &'a T
        requires { 0 < length self.old.items }
        ensures { self.old.items ≡ result.now ∷ self.new.items }
    {
        let at = self.at;
        unsafe {
            self.at = (*at).next;
            &(*at).elem
        }
    }
}
