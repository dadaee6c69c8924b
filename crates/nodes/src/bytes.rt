// Windows and fields of a row of bytes. Past the end a byte reads as 0, and a window is cut at the end.
// Kept: a row and a place in it are what every reader of numbers takes, and no more goes with them.
ghost use Rattle.std.specs.Prelude.{◌≡◌, ℕ, ◌+◌, ◌<◌, drop, slice_index};
ghost use Rattle.nodes.specs.Bytes.{byte, window, le16, le32, le64};

use std::array;

/// The byte at a place.
pub fn byte(bytes: &[u8], at: usize) -> u8
    ensures { result ≡ byte bytes.now at }
{
    bytes.get(at).copied().unwrap_or(0)
}

// What follows the first `n` bytes.
fn skip(bytes: &[u8], n: usize) -> &[u8]
    ensures { result.now ≡ drop n bytes.now }
{
    bytes.get(n..).unwrap_or(&[])
}

/// What follows the first byte.
pub fn tail(bytes: &[u8]) -> &[u8]
    ensures { result.now ≡ drop 1 bytes.now }
{
    skip(bytes, 1)
}

/// The window of `size` bytes from `at` on, cut at the end.
pub fn cut(bytes: &[u8], at: u32, size: u32) -> &[u8]
    ensures { result.now ≡ window bytes.now at size }
{
    let rest = skip(bytes, at as usize);
    rest.get(..size as usize).unwrap_or(rest)
}

// The first bytes of a row, as many as are asked for.
fn first_bytes<const N: usize>(bytes: &[u8]) -> [u8; N]
    ensures { (k : ℕ) → k < N → slice_index result k ≡ byte bytes.now k }
{
    array::from_fn(|k| byte(bytes, k))
}

/// The bytes from a place on, as many as are asked for.
pub fn bytes_at<const N: usize>(bytes: &[u8], at: usize) -> [u8; N]
    ensures { (k : ℕ) → k < N → slice_index result k ≡ byte bytes.now (at + k) }
{
    first_bytes(skip(bytes, at))
}

/// The number of two bytes.
pub fn u16_at(bytes: &[u8], at: u32) -> u16
    ensures { result ≡ le16 bytes.now at }
{
    u16::from_le_bytes(bytes_at(bytes, at as usize))
}

/// The number of four bytes.
// Kept: the width is in the type that is asked for, so each of the three is one line.
pub fn u32_at(bytes: &[u8], at: u32) -> u32
    ensures { result ≡ le32 bytes.now at }
{
    u32::from_le_bytes(bytes_at(bytes, at as usize))
}

/// The signed number of eight bytes.
// Kept: one line by the width of its type, as for four bytes.
pub(crate) fn i64_at(bytes: &[u8], at: u32) -> i64
    ensures { result ≡ le64 bytes.now at }
{
    i64::from_le_bytes(bytes_at(bytes, at as usize))
}
