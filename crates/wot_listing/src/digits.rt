//! Bytes that hexadecimal digits spell.

ghost use Rattle.std.specs.Prelude.{◌≡◌, ◌<◌, ℕ, Some, None, if◌then◌else◌};
ghost use Rattle.std.specs.Result.{result_ok};
ghost use Rattle.hex.specs.Hex.{decode_sized, hex_digit_value, pair_value};

/// The N bytes that 2 N digits spell, and None for any other text. No digit ends the loop or has a branch of its own: which digit comes next can't be guessed, and `hex` of the kit asks of each in which range it is.
pub fn hex_bytes<const N: usize>(f: &[u8]) -> Option<[u8; N]>
    ensures { result ≡ result_ok (decode_sized f.now N) }
{
    if f.len() % 2 != 0 {
        return None;
    }
    if f.len() / 2 != N {
        return None;
    }
    let mut bytes = [0u8; N];
    let mut good = true;
    'pairs: for i in 0..N {
        let (byte, is_good) = pair(f[2 * i], f[2 * i + 1]);
        bytes[i] = byte;
        good &= is_good;
    }
    if good { Some(bytes) } else { None }
}

/// The byte of two digits, and whether both are digits.
#[inline(always)]
fn pair(high: u8, low: u8) -> (u8, bool)
    ensures { (i : ℕ) → result_ok (pair_value high low i) ≡ (if result.1 then Some result.0 else None) }
{
    let (high, is_high) = digit(high);
    let (low, is_low) = digit(low);
    (high * 16 + low, is_high & is_low)
}

/// The value of a digit, and whether the byte is one. A letter's last four bits are 1 to 6, and of its first two the lower one is set.
#[inline(always)]
fn digit(b: u8) -> (u8, bool)
    ensures value { hex_digit_value b ≡ (if result.1 then Some result.0 else None) }
    ensures small { result.0 < 16 }
{
    ((b % 16 + 9 * (b / 64)) % 16, b.is_ascii_hexdigit())
}
