//! Blocks as elements of GF(2^128) (SP 800-38D, 6.3): a block is the number of its bytes, high byte
//! first.

ghost use Rattle.std.specs.Prelude.{◌≡◌, ℕ, bit_xor};
ghost use Rattle.gcm_mode.specs.Product.{block_of, next_multiple, number_of, product};

// R: the bits 11100001 and 120 zeros.
const REDUCTION: u128 = 0xe100_0000_0000_0000_0000_0000_0000_0000;

// The number of a block.
pub fn number_of(block: &[u8; 16]) -> u128
    ensures { result ≡ number_of block.now }
{
    u128::from_be_bytes(*block)
}

// The block of a number.
pub fn block_of(number: u128) -> [u8; 16]
    ensures { result ≡ block_of number }
{
    number.to_be_bytes()
}

// The multiple after this one: a place to the right.
pub fn next_multiple(v: u128) -> u128
    ensures { result ≡ next_multiple v }
{
    if v % 2 == 1 {
        (v >> 1) ^ REDUCTION
    } else {
        v >> 1
    }
}

/// The product of a sum is the sum of the products, in each factor.
pub fn product_of_sums()
    ensures first { (x y h : ℕ) → product (bit_xor x y) h ≡ bit_xor (product x h) (product y h) }
    ensures second { (x h k : ℕ) → product x (bit_xor h k) ≡ bit_xor (product x h) (product x k) }
{}
