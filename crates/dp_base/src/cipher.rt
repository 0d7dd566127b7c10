//! The two primitives that modes and derivations are generic over.

ghost use Rattle.std.specs.Prelude.{◌≡◌, ℕ, ◌<◌, ◌≤◌, List, [], ◌++◌, length};
ghost use Rattle.dp_base.specs.Blocks.{IsBlock};

/// A block cipher under one key, on blocks of 16 bytes.
pub trait BlockCipher {
    // What the key makes of a block, and the way back.
    ghost cipher: { Self → List ℕ → List ℕ };

    ghost decipher: { Self → List ℕ → List ℕ };

    /// Enciphers the block in place.
    fn encrypt_block(&self, block: &mut [u8; 16])
        ensures { block.new ≡ cipher self.now block.old };

    /// Deciphers the block in place.
    fn decrypt_block(&self, block: &mut [u8; 16])
        ensures { block.new ≡ decipher self.now block.old };

    // A block becomes a block, both ways.
    ghost enciphers: { (c : Self) (b : List ℕ) → IsBlock b → IsBlock (cipher c b) };

    ghost deciphers: { (c : Self) (b : List ℕ) → IsBlock b → IsBlock (decipher c b) };

    // Each undoes the other.
    ghost undoes: { (c : Self) (b : List ℕ) → IsBlock b → decipher c (cipher c b) ≡ b };

    ghost redoes: { (c : Self) (b : List ℕ) → IsBlock b → cipher c (decipher c b) ≡ b };
}

/// A keyed function of messages of any length, fed in pieces.
pub trait Prf {
    // The value of a key and a whole message.
    ghost value: { List ℕ → List ℕ → List ℕ };

    // The bytes of a value.
    ghost value_len: { ℕ };

    // What was fed so far under a key.
    ghost holds: { Self → List ℕ → List ℕ → Type 0 };

    /// The bytes of a value, 1 to 64.
    fn size() -> usize
        ensures { result ≡ value_len };

    /// Begins a message under the key.
    fn new(key: &[u8]) -> Self
        ensures { holds result key.now [] };

    /// Goes on with the message.
    fn update(&mut self, piece: &[u8])
        ensures { (k m : List ℕ) → holds self.old k m → holds self.new k (m ++ piece.now) };

    /// Ends the message, and writes its value.
    fn finish(self, out: &mut [u8])
        requires { length out.old ≡ value_len }
        ensures { (k m : List ℕ) → holds self k m → out.new ≡ value k m };

    ghost some: { 1 ≤ value_len };

    ghost at_most: { value_len ≤ 64 };

    // The value is a function of the key and of the whole message, and has its length.
    ghost has_len: { (k m : List ℕ) → length (value k m) ≡ value_len };
}
