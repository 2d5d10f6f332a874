//! What holds of all texts. The law is the contract of a function that does nothing.

ghost use Rattle.std.specs.Prelude.{◌≡◌, ℕ, false, List, [], ◌∷◌, ◌++◌, nat_eq};
ghost use Rattle.std.specs.List.{starts_with};
ghost use Rattle.dh_texts.specs.Escapes.{escaped};
ghost use Rattle.dh_redirects.specs.Locations.{filled, sent_byte};
ghost use Rattle.dh_redirects.specs.Redirects.{splat};

/// From left to right, each `:splat` of To becomes the escaped rest, and every other byte is sent as it is or escaped.
pub fn to_is_filled_from_the_left()
    ensures end { (rest : List ℕ) → filled rest [] ≡ [] }
    ensures splat { (rest text : List ℕ)
        → filled rest (splat ++ text) ≡ escaped rest ++ filled rest text }
    ensures byte { (byte : ℕ) (rest text : List ℕ)
        → starts_with nat_eq (byte ∷ text) splat ≡ false
        → filled rest (byte ∷ text) ≡ sent_byte byte ++ filled rest text }
{}
