//! Opening undoes sealing.

ghost use Rattle.std.specs.Prelude.{◌≡◌, ℕ, List, length};
ghost use Rattle.dp_base.specs.Blocks.{AreBytes};
ghost use Rattle.dp_base.specs.Lengths.{iv_len};
ghost use Rattle.dp_base.specs.declared.alg.Alg.{Alg};
ghost use Rattle.context_header.specs.Keys.{KeyPair};
ghost use Rattle.payload_view.specs.Payload.{Parts, joined, parts_of};
ghost use Rattle.dp_encryptor.specs.Body.{Opens, Secret, sealed, subkeys};

/// The body of a text, split into its parts again, opens to the text, for every algorithm, secret,
/// modifier, vector and text; and no body opens to two texts.
pub fn opening_undoes_sealing()
    ensures opens { (secret : Secret) (aad modifier iv text : List ℕ)
        → length modifier ≡ 16 → length iv ≡ iv_len secret.alg → AreBytes iv
        → Opens secret.alg (subkeys secret aad modifier)
        (parts_of secret.alg (joined (sealed secret aad modifier iv text))) text }
    ensures one { (alg : Alg) (keys : KeyPair) (parts : Parts) (text other : List ℕ)
        → length parts.iv ≡ iv_len alg → AreBytes parts.iv → AreBytes text → AreBytes other
        → Opens alg keys parts text → Opens alg keys parts other → text ≡ other }
{}
