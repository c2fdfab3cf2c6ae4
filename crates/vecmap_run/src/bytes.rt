//! Bytes in a fixed array.
ghost use Rattle.std.specs.{Prelude.{◌≡◌, ◌++◌, ◌∷◌, ◌<◌, ◌≤◌, ◌==◌, [], List, ℕ, length, take}, Bool.OnFalse};

use std::marker::Model;

/// At most `N` bytes. A contract sees them as a list.
#[derive(Drop)]
pub struct Bytes<const N: usize> {
    items: [u8; N],
    len: usize,
}

impl<const N: usize> Model for Bytes<N> {
    ghost Value = { List ℕ };

    ghost view = { λ b. take b.len b.items };

    ghost invariant = { λ b. b.len ≤ N };
}

impl<const N: usize> Bytes<N> {
    /// Creates an empty list of bytes.
    pub fn new() -> Bytes<N>
        ensures { result ≡ [] }
    {
        Bytes {
            items: [0; N],
            len: 0,
        }
    }

    /// Returns the bytes.
    pub fn as_slice(&self) -> &[u8]
        ensures { result.now ≡ self.now }
    {
        &self.items[..self.len]
    }

    /// Returns `true` if there are no bytes.
    pub fn is_empty(&self) -> bool
        ensures { result ≡ (length self.now == 0) }
    {
        self.len == 0
    }

    /// Returns `true` if the array has no spare capacity.
    pub fn is_full(&self) -> bool
        ensures full { result ≡ (length self.now == N) }
        ensures room { OnFalse result (length self.now < N) }
    {
        self.len == N
    }

    /// Appends a byte.
    pub fn push(&mut self, byte: u8)
        requires { length self.old < N }
        ensures { self.new ≡ self.old ++ byte ∷ [] }
    {
        self.items[self.len] = byte;
        self.len += 1;
    }

    /// Removes all bytes.
    pub fn clear(&mut self)
        ensures { self.new ≡ [] }
    {
        self.len = 0;
    }
}
