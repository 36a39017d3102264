//! Numbers drawn from a seed.

ghost use Rattle.std.specs.Prelude.{◌≡◌};
ghost use Rattle.wot_types.specs.Sample.{draw, mix};

/// Steele, Lea and Flood's splitmix64: a number whose bits depend on all bits of this one.
fn mix(x: u64) -> u64
    ensures { result ≡ mix x }
{
    let z = x.wrapping_add(0x9e37_79b9_7f4a_7c15);
    let z = (z ^ (z >> 30)).wrapping_mul(0xbf58_476d_1ce4_e5b9);
    let z = (z ^ (z >> 27)).wrapping_mul(0x94d0_49bb_1331_11eb);
    z ^ (z >> 31)
}

/// Draw `k` of key `i`.
pub fn draw(seed: u64, i: u32, k: u8) -> u64
    ensures { result ≡ draw seed i k }
{
    mix(seed.wrapping_add(mix(16 * u64::from(i) + u64::from(k))))
}
