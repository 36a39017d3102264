//! The bytes of one call.

ghost use Rattle.std.specs.Prelude.{◌≡◌, ◌⊎◌, ◌+◌, ◌<◌, ◌≤◌, length, take, drop, slice_index, IfOk};
ghost use Rattle.wot_site.specs.Disk.{bytes_after_write};
ghost use Rattle.wot_site.specs.CallBytes.{bytes_per_call};

use std::alloc::Global;
use wot_types::Mem;

/// How many of n bytes pass in one call.
pub fn bytes_per_call(cut: Option<u32>, n: usize) -> usize
    ensures { result ≡ bytes_per_call cut n }
{
    match cut {
        None => n,
        Some(most) => n.min(most as usize),
    }
}

/// Copies the first n bytes of one slice over those of another.
pub fn copy_front(buf: &mut [u8], from: &[u8], n: usize)
    requires room { n ≤ length buf.old }
    requires there { n ≤ length from.now }
    ensures front { take n buf.new ≡ take n from.now }
    ensures same { length buf.new ≡ length buf.old }
{
    for i in 0..n {
        buf[i] = from[i];
    }
}

/// Copies bytes from a place on into the front of a buffer, as many as there are and fit, and answers how many.
pub fn read_at(bytes: &[u8], at: u64, buf: &mut [u8]) -> usize
    ensures fits { result ≤ length buf.old }
    ensures same { length buf.new ≡ length buf.old }
    ensures front { take result buf.new ≡ take result (drop at bytes.now) }
    ensures within { result ≤ length (drop at bytes.now) }
    ensures last { result ≡ 0 → 0 < length buf.new → length bytes.now ≤ at }
{
    if bytes.len() as u64 <= at {
        return 0;
    }
    let rest = &bytes[at as usize..];
    let n = buf.len().min(rest.len());
    copy_front(buf, rest, n);
    n
}

/// A list with bytes written over it from a place on, and past its end.
pub fn written_over(alloc: Global, old: &[u8], at: usize, bytes: &[u8]) -> Result<Vec<u8>, Mem>
    requires { at ≤ length old.now }
    ensures { IfOk result (λ v. v.items ≡ bytes_after_write old.now at bytes.now) }
{
    let mut next = old[..at].to_vec(alloc)?;
    next.extend_from_slice(bytes)?;
    if bytes.len() < old.len() - at {
        next.extend_from_slice(&old[at + bytes.len()..])?;
    }
    Ok(next)
}

/// Fills so many bytes from a place on, as far as the list goes.
pub fn fill_range(bytes: &mut Vec<u8>, at: u64, len: usize, byte: u8)
    ensures length { length bytes.new.items ≡ length bytes.old.items }
    ensures kept { (i : _) → (i < at) ⊎ (at + len ≤ i) → slice_index bytes.new.items i ≡ slice_index bytes.old.items i }
    ensures filled { (i : _) → i < length bytes.new.items → at ≤ i → i < at + len → slice_index bytes.new.items i ≡ byte }
{
    for i in 0..bytes.len() {
        if at <= i as u64 && i as u64 - at < len as u64 {
            bytes[i] = byte;
        }
    }
}
