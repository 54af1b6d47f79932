// SHA-256 (RFC 6234) of a message of any length.
#![tactic(auto)]

ghost use Rattle.std.specs.Prelude.{◌≡◌, ◌/◌, ◌%◌, ◌^◌, ◌<◌, ◌≤◌, length, fold, zip, bit_xor};
ghost use Rattle.std.specs.Int.{rotate_right, w32};
ghost use Rattle.sha256.specs.Sha256.{ch, maj, turned, table, after, scheduled, compressed, sums, bytes, ended, digested};

use octets::Buffer;
use std::array;

const TABLE: [u32; 64] = [
    0x428a2f98, 0x71374491, 0xb5c0fbcf, 0xe9b5dba5, 0x3956c25b, 0x59f111f1, 0x923f82a4, 0xab1c5ed5,
    0xd807aa98, 0x12835b01, 0x243185be, 0x550c7dc3, 0x72be5d74, 0x80deb1fe, 0x9bdc06a7, 0xc19bf174,
    0xe49b69c1, 0xefbe4786, 0x0fc19dc6, 0x240ca1cc, 0x2de92c6f, 0x4a7484aa, 0x5cb0a9dc, 0x76f988da,
    0x983e5152, 0xa831c66d, 0xb00327c8, 0xbf597fc7, 0xc6e00bf3, 0xd5a79147, 0x06ca6351, 0x14292967,
    0x27b70a85, 0x2e1b2138, 0x4d2c6dfc, 0x53380d13, 0x650a7354, 0x766a0abb, 0x81c2c92e, 0x92722c85,
    0xa2bfe8a1, 0xa81a664b, 0xc24b8b70, 0xc76c51a3, 0xd192e819, 0xd6990624, 0xf40e3585, 0x106aa070,
    0x19a4c116, 0x1e376c08, 0x2748774c, 0x34b0bcb5, 0x391c0cb3, 0x4ed8aa4a, 0x5b9cca4f, 0x682e6ff3,
    0x748f82ee, 0x78a5636f, 0x84c87814, 0x8cc70208, 0x90befffa, 0xa4506ceb, 0xbef9a3f7, 0xc67178f2,
];

const START: [u32; 8] = [
    0x6a09e667, 0xbb67ae85, 0x3c6ef372, 0xa54ff53a, 0x510e527f, 0x9b05688c, 0x1f83d9ab, 0x5be0cd19,
];

// The bytes of a last block before the length.
const ROOM: usize = 56;

const ZEROS: [u8; 64] = [0; 64];

#[tactic(auto, unfolding(crate::specs::Sha256::ch))]
fn choose(x: u32, y: u32, z: u32) -> u32
    ensures { result ≡ ch x y z }
{
    (x & y) ^ (!x & z)
}

#[tactic(auto, unfolding(crate::specs::Sha256::maj))]
fn majority(x: u32, y: u32, z: u32) -> u32
    ensures { result ≡ maj x y z }
{
    (x & y) ^ (x & z) ^ (y & z)
}

// BSIG0 and BSIG1 of the RFC.
fn big_sigma<const A: u32, const B: u32, const C: u32>(x: u32) -> u32
    ensures { result ≡ bit_xor (bit_xor (rotate_right w32 x A) (rotate_right w32 x B)) (rotate_right w32 x C) }
{
    x.rotate_right(A) ^ x.rotate_right(B) ^ x.rotate_right(C)
}

// SSIG0 and SSIG1.
fn small_sigma<const A: u32, const B: u32, const C: u32>(x: u32) -> u32
    requires { C < 32 }
    ensures { result ≡ bit_xor (bit_xor (rotate_right w32 x A) (rotate_right w32 x B)) (x / 2 ^ C) }
{
    x.rotate_right(A) ^ x.rotate_right(B) ^ (x >> C)
}

// One round, with its constant and its word.
#[tactic(auto, unfolding(crate::specs::Sha256::turned, crate::specs::Sha256::t1, crate::specs::Sha256::t2, crate::specs::Sha256::bsig0, crate::specs::Sha256::bsig1))]
fn round(s: [u32; 8], kw: (&u32, &u32)) -> [u32; 8]
    ensures { result ≡ turned s kw.entry.0.now kw.entry.1.now }
{
    let (k, w) = kw;
    let [a, b, c, d, e, f, g, h] = s;
    let t1 = h
        .wrapping_add(big_sigma::<6, 11, 25>(e))
        .wrapping_add(choose(e, f, g))
        .wrapping_add(*k)
        .wrapping_add(*w);
    let t2 = big_sigma::<2, 13, 22>(a).wrapping_add(majority(a, b, c));
    [t1.wrapping_add(t2), a, b, c, d.wrapping_add(t1), e, f, g]
}

// The word after the first `t`.
#[tactic(auto, unfolding(crate::specs::Sha256::after, crate::specs::Sha256::ssig0, crate::specs::Sha256::ssig1))]
fn word_after(w: &[u32; 64], t: usize) -> u32
    requires low { 16 ≤ t }
    requires high { t < 64 }
    ensures { result ≡ after w.now t }
{
    small_sigma::<17, 19, 10>(w[t - 2])
        .wrapping_add(w[t - 7])
        .wrapping_add(small_sigma::<7, 18, 3>(w[t - 15]))
        .wrapping_add(w[t - 16])
}

#[tactic(auto, unfolding(crate::specs::Sha256::extended))]
fn schedule(block: &[u8; 64]) -> [u32; 64]
    ensures { result ≡ scheduled block.now }
{
    let mut w = [0; 64];
    let (words, _) = block.as_chunks::<4>();
    for (i, word) in words.iter().enumerate() {
        w[i] = u32::from_be_bytes(*word);
    }
    // A range, since each word is made of words before it.
    for t in 16..64 {
        w[t] = word_after(&w, t);
    }
    w
}

#[tactic(auto, unfolding(crate::specs::Sha256::sums))]
fn sum(s: [u32; 8], x: [u32; 8]) -> [u32; 8]
    ensures { result ≡ sums s x }
{
    array::from_fn(|i| s[i].wrapping_add(x[i]))
}

#[tactic(auto, unfolding(crate::specs::Sha256::table))]
fn rounds(s: [u32; 8], w: &[u32; 64]) -> [u32; 8]
    ensures { result ≡ fold (λ s kw. turned s kw.0 kw.1) s (zip table w.now) }
{
    TABLE.iter().zip(w).fold(s, round)
}

#[tactic(auto, using(crate::proofs::Lemmas::compressed_is))]
fn compress(s: [u32; 8], block: &[u8; 64]) -> [u32; 8]
    ensures { result ≡ compressed s block.now }
{
    sum(s, rounds(s, &schedule(block)))
}

#[tactic(auto, unfolding(crate::specs::Sha256::bytes))]
fn bytes_of(s: [u32; 8]) -> [u8; 32]
    ensures { result ≡ bytes s }
{
    let mut out = [0; 32];
    out.copy_from_slice(s.map(u32::to_be_bytes).as_flattened());
    out
}

// The end of a message of `total` bytes: what is left after its whole blocks, and the padding. One block or two.
#[tactic(auto, using(crate::proofs::Lemmas::ended_is))]
fn end_of(rest: &[u8], total: usize) -> Buffer<128>
    requires few { length rest.now ≡ total % 64 }
    ensures { result ≡ ended rest.now total }
{
    let mut end = Buffer::new();
    end.extend(rest);
    end.push(0x80);
    end.extend(&ZEROS[..(ROOM + 63 - rest.len()) % 64]);
    end.extend(&(total as u64).wrapping_mul(8).to_be_bytes());
    end
}

// The hash `s` after these blocks.
fn run(s: [u32; 8], blocks: &[[u8; 64]]) -> [u32; 8]
    ensures { result ≡ fold compressed s blocks.now }
{
    blocks.iter().fold(s, compress)
}

#[tactic(auto, using(crate::proofs::Lemmas::digest_is), unfolding(crate::specs::Sha256::start))]
pub fn digest(message: &[u8]) -> [u8; 32]
    ensures { result ≡ digested message.now }
{
    let (blocks, rest) = message.as_chunks::<64>();
    let end = end_of(rest, message.len());
    let (last, _) = end.as_chunks::<64>();
    bytes_of(run(run(START, blocks), last))
}
