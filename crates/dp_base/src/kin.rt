//! Values that bear a mark.

/// A value whose mark tells what it belongs to. Contracts alone see it, and no call reads it.
pub trait Kin {
    // What values of one kin have in common.
    ghost Mark: { Type 0 };

    ghost mark: { Self → Mark };
}
