//! A list of items of any type, as contracts see it.

use std::marker::Model;

/// A vector that contracts see as the plain list of its items.
#[derive(Drop, Debug)]
pub struct Listed<T> {
    /// The items in order.
    pub items: Vec<T>,
}

impl<T> Model for Listed<T> {
    ghost use Rattle.std.specs.Prelude.{List};

    ghost Value = { List T };

    ghost view = { λ l. l.items.items };
}
