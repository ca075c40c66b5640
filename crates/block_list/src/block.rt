//! A block has room for sixteen items, and holds at least one.
ghost use Rattle.std.specs.Prelude.{◌≡◌, ◌<◌, ◌≤◌, length};

/// The first `used` items count. `more` says that another block follows.
#[derive(Drop)]
pub struct Block<T: Copy> {
    pub items: [T; 16],
    pub used: usize,
    pub more: bool,
    ghost some: { 0 < used },
    ghost within: { used ≤ length items },
    ghost sized: { length items ≡ 16 },
}
