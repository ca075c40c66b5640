//! The end of a line, in place: what comes before it is put in front of it, so a number is spelled where it stands.
//! It takes no memory of its own.

ghost use Rattle.std.specs.Prelude.{◌≡◌, ◌+◌, ◌≤◌, ◌<◌, ◌++◌, length, decimal, drop, []};

use itoa::write_digits;
use std::marker::Model;

/// How many bytes the end of a line has room for.
const ROOM: usize = 200;

/// The last bytes of a line.
#[derive(Drop)]
pub struct Tail {
    bytes: [u8; ROOM],
    start: usize,
}

impl Model for Tail {
    ghost use Rattle.std.specs.Prelude.{ℕ, List, ◌≤◌, drop};

    ghost Value = { List ℕ };

    ghost view = { λ t. drop t.start t.bytes };

    ghost invariant = { λ t. t.start ≤ 200 };
}

impl Tail {
    /// The end of a line: nothing.
    pub fn new() -> Tail
        ensures { result ≡ [] }
    {
        Tail {
            bytes: [0; ROOM],
            start: ROOM,
        }
    }

    /// The bytes so far.
    pub fn bytes(&self) -> &[u8]
        ensures { result.now ≡ self.now }
    {
        &self.bytes[self.start..]
    }

    /// Leaves nothing.
    pub fn clear(&mut self)
        ensures { self.new ≡ [] }
    {
        self.start = ROOM;
    }

    /// Puts text in front.
    pub fn put(&mut self, text: &[u8])
        requires { length self.old + length text.now ≤ 200 }
        ensures { self.new ≡ text.now ++ self.old }
    {
        let start = self.start - text.len();
        self.bytes[start..self.start].copy_from_slice(text);
        self.start = start;
    }

    /// Puts a number in decimals in front.
    pub fn put_number(&mut self, n: u64)
        requires { length self.old + 20 ≤ 200 }
        ensures text { self.new ≡ decimal n ++ self.old }
        ensures room { length self.new ≤ length self.old + 20 }
    {
        self.start = write_digits(n, &mut self.bytes, self.start);
    }

    /// Takes the first byte away.
    pub fn drop_first(&mut self)
        requires { 0 < length self.old }
        ensures { self.new ≡ drop 1 self.old }
    {
        self.start += 1;
    }
}
