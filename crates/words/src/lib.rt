// Internal: pub only for our own crates. Bytes and little-endian numbers of a slice, and bytes put into one.
#![tactic(auto)]

ghost use Rattle.std.specs.Prelude.{◌≡◌, ◌+◌, ◌≤◌, ◌<◌, length};
ghost use Rattle.std.proofs.lemmas.List.Edits.{sets};
ghost use Rattle.words.specs.Words.{byte_at, word_at, long_at, number_at, BytesAt};

use std::array;

// The byte at i, or 0 past the end.
// 0 and no Option, here and below: any bytes are read as a state and as a roster (`byte_at`).
pub fn byte_at(s: &[u8], i: usize) -> u8
    ensures { result ≡ byte_at s.now i }
{
    s.get(i).copied().unwrap_or(0)
}

// The bytes at i, which are there.
pub fn bytes_in<const N: usize>(s: &[u8], i: usize) -> [u8; N]
    requires { i + N ≤ length s.now }
    ensures { BytesAt s.now i N result }
{
    array::from_fn(|k| s[i + k])
}

// The bytes at i; a byte past the end is 0.
pub fn bytes_at<const N: usize>(s: &[u8], i: usize) -> [u8; N]
    ensures { BytesAt s.now i N result }
{
    let rest = &s[i.min(s.len())..];
    array::from_fn(|k| byte_at(rest, k))
}

// A function for each size, since each type has a from_le_bytes of its own, in no trait; and one for bytes that are there, which tests
// nothing, on the path of each event.

// The two bytes at i, which are there.
pub fn word_in(s: &[u8], i: usize) -> u16
    requires { i + 1 < length s.now }
    ensures { result ≡ word_at s.now i }
{
    u16::from_le_bytes(bytes_in(s, i))
}

// The two bytes at i; a byte past the end is 0.
pub fn word_at(s: &[u8], i: usize) -> u16
    ensures { result ≡ word_at s.now i }
{
    u16::from_le_bytes(bytes_at(s, i))
}

// The four bytes at i, which are there.
pub fn long_in(s: &[u8], i: usize) -> u32
    requires { i + 3 < length s.now }
    ensures { result ≡ long_at s.now i }
{
    u32::from_le_bytes(bytes_in(s, i))
}

// The four bytes at i; a byte past the end is 0.
pub fn long_at(s: &[u8], i: usize) -> u32
    ensures { result ≡ long_at s.now i }
{
    u32::from_le_bytes(bytes_at(s, i))
}

// The eight bytes at i; a byte past the end is 0.
pub fn number_at(s: &[u8], i: usize) -> u64
    ensures { result ≡ number_at s.now i }
{
    u64::from_le_bytes(bytes_at(s, i))
}

// The eight bytes at i, which are there.
pub fn number_in(s: &[u8], i: usize) -> u64
    requires { i + 7 < length s.now }
    ensures { result ≡ number_at s.now i }
{
    u64::from_le_bytes(bytes_in(s, i))
}

// Bytes put into others, from `at` on.
// A buffer and a place, not a slice from it: `sets` says the whole buffer, and callers name places of the layout.
pub fn put(out: &mut [u8], at: usize, bytes: &[u8])
    requires { at + length bytes.now ≤ length out.old }
    ensures { out.new ≡ sets out.old at bytes.now }
{
    out[at..at + bytes.len()].copy_from_slice(bytes);
}
