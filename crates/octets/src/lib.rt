// Byte strings: parts of them laid one after another into a slice, kept in a buffer without heap, and compared.
#![tactic(auto)]

ghost use Rattle.std.specs.Prelude.{◌≡◌, ◌+◌, ◌≤◌, length};
ghost use Rattle.std.specs.Str.{bytes_eq};
ghost use Rattle.octets.specs.Octets.{laid};

pub use buffer::Buffer;

mod buffer;

// Lays `part` over `out` from `at` on.
#[inline(always)]
pub fn put(out: &mut [u8], at: usize, part: &[u8])
    requires { at + length part.now ≤ length out.old }
    ensures { out.new ≡ laid out.old at part.now }
{
    out[at..at + part.len()].copy_from_slice(part);
}

// Whether two strings are the same, byte for byte: `==` of slices, under the name that it has been called by.
pub fn same(a: &[u8], b: &[u8]) -> bool
    ensures { result ≡ bytes_eq a.now b.now }
{
    a == b
}
