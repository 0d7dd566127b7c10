//! What holds at all nodes.

ghost use Rattle.dp_protector.specs.Laws.{BodyHasOneText, DefaultIsSound, NoneIsSound, OpensAtEveryNode, OpensForOneChain, PayloadHasOneText, RecordStaysShut, StaysShut};

/// What one node protects, every node opens whose ring holds the key, unrevoked or allowed; for another
/// chain it opens only where two tags are equal though their authenticated data differ.
pub fn same_bytes_at_every_node()
    ensures opens { OpensAtEveryNode }
    ensures one_chain { OpensForOneChain }
{}

/// What was revoked stays shut: by its id, or by the record that a mass revocation covers.
pub fn revoked_stays_shut()
    ensures id { StaysShut }
    ensures record { RecordStaysShut }
{}

/// A ring has a default key exactly where it has a key that is usable and unrevoked.
pub fn default_key_is_sound()
    ensures sound { DefaultIsSound }
    ensures none { NoneIsSound }
{}

/// What a body opens to is the text that has this body, and a payload has one text.
pub fn texts_are_exact()
    ensures body { BodyHasOneText }
    ensures payload { PayloadHasOneText }
{}
