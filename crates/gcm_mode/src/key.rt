//! The key of the hash, and the product with it (SP 800-38D, 6.3), by tables.

ghost use Rattle.std.specs.Prelude.{◌≡◌, ◌%◌, slice_index};
ghost use Rattle.gcm_mode.specs.Key.{IsTable, element};
ghost use Rattle.gcm_mode.specs.Product.{next_multiple, number_of, product};

use crate::product::{next_multiple, number_of};
use std::marker::Model;

/// A block as the key of the hash, of which 16 multiples are worked out once. Takes no memory.
///
/// A product reads them at places that depend on what is hashed, so its time may tell of that and
/// of the key to who shares the machine: it doesn't run in constant time.
#[derive(Drop)]
pub struct GhashKey {
    // The multiple for each digit of four bits, of which the leftmost stands for the key itself.
    multiples: [u128; 16],
}

// Clauses see the number of the block.
impl Model for GhashKey {
    ghost use Rattle.std.specs.Prelude.{ℕ, slice_index};
    ghost use Rattle.gcm_mode.specs.Key.{IsTable};

    ghost Value = { ℕ };

    ghost view = { λ k. slice_index k.multiples 8 };

    ghost invariant = { λ k. IsTable k.multiples (slice_index k.multiples 8) };
}

impl GhashKey {
    /// Works the multiples of the block out.
    pub fn new(h: &[u8; 16]) -> GhashKey
        ensures { result ≡ number_of h.now }
    {
        let a = number_of(h);
        let b = next_multiple(a);
        let c = next_multiple(b);
        let d = next_multiple(c);
        GhashKey {
            multiples: table(a, b, c, d),
        }
    }

    /// The product of an element and the key, by 32 look-ups and one reduction.
    pub fn product(&self, x: u128) -> u128
        ensures { result ≡ product x self.now }
    {
        combed(&self.multiples, x)
    }
}

// The sums of the four numbers for each digit, of which the leftmost bit is a's.
#[rattlefmt::skip]
fn table(a: u128, b: u128, c: u128, d: u128) -> [u128; 16]
    requires b { b ≡ next_multiple a }
    requires c { c ≡ next_multiple b }
    requires d { d ≡ next_multiple c }
    ensures { IsTable result a }
{
    [
        0, d, c, c ^ d, b, b ^ d, b ^ c, b ^ c ^ d,
        a, a ^ d, a ^ c, a ^ c ^ d, a ^ b, a ^ b ^ d, a ^ b ^ c, a ^ b ^ c ^ d,
    ]
}

// The product with the number of the table. Each of eight turns goes four places on, and adds the
// multiples for a digit of each quarter of x, the last digits first. The sum has 256 bits, of which
// the last 4 stay 0.
fn combed(m: &[u128; 16], x: u128) -> u128
    requires { IsTable m.now (slice_index m.now 8) }
    ensures { result ≡ product x (slice_index m.now 8) }
{
    let mut y1 = (x >> 64) as u64;
    let mut y0 = (x % (1 << 64)) as u64;
    let mut high = 0u128;
    let mut low = 0u128;
    for _ in 0..8u32 {
        let a = m[((y1 >> 32) % 16) as usize];
        let b = m[(y1 % 16) as usize];
        let c = m[((y0 >> 32) % 16) as usize];
        let d = m[(y0 % 16) as usize];
        low = (low >> 4) ^ (high << 124) ^ ((b << 96) ^ (c << 64) ^ (d << 32));
        high = (high >> 4) ^ (a ^ (b >> 32) ^ (c >> 64) ^ (d >> 96));
        y1 >>= 4;
        y0 >>= 4;
    }
    reduced(high, low)
}

// The 256 bits modulo x^128 + x^7 + x^2 + x + 1: each of the last 128 stands for x^7 + x^2 + x + 1
// at its place. The last 4 are 0, so only x^7 leads past the end, for three bits: t has them in
// front, too.
fn reduced(high: u128, low: u128) -> u128
    requires { low % 16 ≡ 0 }
    ensures { result ≡ element high low }
{
    let t = low ^ (low << 121);
    high ^ (t ^ (t >> 1) ^ (t >> 2) ^ (t >> 7))
}
