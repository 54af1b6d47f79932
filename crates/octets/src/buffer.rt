// A string of at most `N` bytes that needs no memory from the heap. Its methods are taken into their callers, where the lengths of the parts are known: a paper's bytes are then
// laid by moves of fixed lengths.
ghost use Rattle.std.specs.Prelude.{◌≡◌, ℕ, ◌+◌, ◌^◌, ◌<◌, ◌≤◌, List, [], ◌∷◌, ◌++◌, length, take};
ghost use Rattle.std.specs.List.{flat_map};

use crate::put;
use std::marker::Model;
use std::ops::DerefSlice;

// Clauses see the bytes that were written.
#[derive(Clone, Drop)]
pub struct Buffer<const N: usize> {
    bytes: [u8; N],
    len: usize,
}

impl<const N: usize> Model for Buffer<N> {
    ghost Value = { List ℕ };

    ghost view = { λ b. take b.len b.bytes };

    ghost invariant = { λ b. (b.len ≤ N) × (length b.bytes ≡ N) };
}

impl<const N: usize> Buffer<N> {
    #[inline(always)]
    pub fn new() -> Self
        ensures { result ≡ [] }
    {
        Buffer {
            bytes: [0; N],
            len: 0,
        }
    }

    #[inline(always)]
    pub fn push(&mut self, byte: u8)
        requires { length self.old < N }
        ensures { self.new ≡ self.old ++ byte ∷ [] }
    {
        self.bytes[self.len] = byte;
        self.len += 1;
    }

    #[inline(always)]
    pub fn extend(&mut self, part: &[u8])
        requires { length self.old + length part.now ≤ N }
        ensures { self.new ≡ self.old ++ part.now }
    {
        put(&mut self.bytes, self.len, part);
        self.len += part.len();
    }

    // These parts, one after another.
    #[inline(always)]
    pub fn extend_all(&mut self, parts: &[&[u8]])
        requires fits { length self.old + length (flat_map (λ p. p.now) parts.now) ≤ N }
        requires small { N < 2 ^ 32 }
        ensures { self.new ≡ self.old ++ flat_map (λ p. p.now) parts.now }
    {
        for part in parts {
            self.extend(part);
        }
    }

    // All of it, as an array of just its length.
    #[inline(always)]
    pub fn into_array<const M: usize>(self) -> [u8; M]
        requires { length self ≡ M }
        ensures { result ≡ self.entry }
    {
        let mut out = [0; M];
        out.copy_from_slice(&self);
        out
    }
}

impl<const N: usize> DerefSlice for Buffer<N> {
    type Elem = u8;

    ghost deref_gives = { λ b bytes. bytes ≡ b };

    #[inline(always)]
    fn deref(&self) -> &[u8] {
        &self.bytes[..self.len]
    }
}
