//! What was opened.

/// A plaintext, and what the ring says of its key.
#[derive(Debug, Drop)]
pub struct Opened {
    pub plain: Vec<u8>,
    /// The key is revoked.
    pub revoked: bool,
    /// The ring protects with another key by now.
    pub default_changed: bool,
}

/// A text, and what the ring says of its key.
#[derive(Debug, Drop)]
pub struct OpenedText {
    pub text: String,
    /// The key is revoked.
    pub revoked: bool,
    /// The ring protects with another key by now.
    pub default_changed: bool,
}

/// A plaintext that is used up to its expiry, in ticks, and what the ring says of its key.
#[derive(Debug, Drop)]
pub struct OpenedTimed {
    pub plain: Vec<u8>,
    pub expiry: u64,
    /// The key is revoked.
    pub revoked: bool,
    /// The ring protects with another key by now.
    pub default_changed: bool,
}
