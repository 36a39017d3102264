//! The bytes of numbers, big-endian.

ghost use Rattle.std.specs.Prelude.{◌≡◌, ◌<◌, ◌^◌};
ghost use Rattle.wot_types.specs.Spelling.{number_4, number_8};

#[tactic(auto, unfolding(wot_types::specs::Spelling::number_4))]
pub fn number_4(n: u32) -> [u8; 4]
    ensures spelled { result ≡ number_4 n }
    ensures fits { n < 2 ^ 32 }
{
    n.to_be_bytes()
}

#[tactic(auto, unfolding(wot_types::specs::Spelling::number_8))]
pub fn number_8(n: u64) -> [u8; 8]
    ensures spelled { result ≡ number_8 n }
    ensures fits { n < 2 ^ 64 }
{
    n.to_be_bytes()
}
