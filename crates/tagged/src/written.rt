// Bytes that are written one behind the other.
ghost use Rattle.std.specs.Prelude.{◌≡◌, ◌+◌, ◌≤◌, List, [], ◌++◌, ℕ, length, take};

use std::marker::Model;

// There is room for N of them. Clauses see those that are written.
#[derive(Drop)]
pub struct Written<const N: usize> {
    bytes: [u8; N],
    count: usize,
}

impl<const N: usize> Model for Written<N> {
    ghost Value = { List ℕ };

    ghost view = { λ w. take w.count w.bytes };

    ghost invariant = { λ w. w.count ≤ N };
}

impl<const N: usize> Written<N> {
    pub fn new() -> Self
        ensures { result ≡ [] }
    {
        Written {
            bytes: [0; N],
            count: 0,
        }
    }

    pub fn append(&mut self, b: &[u8])
        requires { length self.old + length b.now ≤ N }
        ensures { self.new ≡ self.old ++ b.now }
    {
        let end = self.count + b.len();
        let bytes = &mut self.bytes[..];
        bytes[self.count..end].copy_from_slice(b);
        self.count = end;
    }

    pub fn as_slice(&self) -> &[u8]
        ensures { result.now ≡ self.now }
    {
        &self.bytes[..self.count]
    }
}
