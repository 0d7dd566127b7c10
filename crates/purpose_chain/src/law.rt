//! Authenticated data tell the key and the chain.

ghost use Rattle.std.specs.Prelude.{◌≡◌, ◌<◌, ◌^◌, ℕ, List};
ghost use Rattle.purpose_chain.specs.Chain.{IsChain, aad};

/// Two ids and chains of the same authenticated data are the same.
pub fn aad_one_to_one()
    ensures { (a b : ℕ) (c d : List (List ℕ)) → a < 2 ^ 128 → b < 2 ^ 128 → IsChain c → IsChain d
        → aad a c ≡ aad b d → (a ≡ b) × (c ≡ d) }
{}
