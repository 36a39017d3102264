//! What a sample's keys are made of.

ghost use Rattle.std.specs.Prelude.{◌≡◌, ◌∷◌, [], map, codes};
ghost use Rattle.wot_types.specs.Keyring.{id_of};
ghost use Rattle.wot_types.specs.Printing.{key_id_text};
ghost use Rattle.wot_types.specs.Sample.{draw, mix, sample_cert, sample_key, sample_user};

/// The numbers that are drawn are splitmix64's: the first that it gives from 0 is e220a8397b1dcdaf in hexadecimal.
pub fn numbers_are_drawn_by_splitmix64()
    ensures mixed { mix 0 ≡ 16294208416658607535 }
    ensures drawn { draw 7 1 0 ≡ 18109166271695330942 }
{}

/// Keys are named by the seed and their number, and certified by keys before them.
pub fn samples_are_made_from_their_seed()
    ensures key_id { key_id_text (id_of (sample_key 7 0)) ≡ codes "0000000700000000" }
    ensures text { (sample_user 7 0).text ≡ codes "Key 0 <k0@d0.example>" }
    ensures alone { (sample_user 7 0).certs ≡ [] }
    ensures issuers { map (λ c. (sample_cert 7 12 c).issuer) (0 ∷ 1 ∷ 2 ∷ 3 ∷ []) ≡ 30064771075 ∷ 30064771073 ∷ 30064771073 ∷ 30064771076 ∷ [] }
    ensures depths { map (λ c. (sample_cert 7 5 c).depth) (0 ∷ 1 ∷ 2 ∷ 3 ∷ []) ≡ 0 ∷ 0 ∷ 2 ∷ 0 ∷ [] }
{}
