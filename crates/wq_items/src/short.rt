//! Short names, of four to eight bytes, and tiny ones, of one to three.
//!
//! The first four bytes of a short name and its last four, which may overlap, are the whole name. So it is read as two
//! numbers of four bytes, whatever its length. A tiny name is its first byte, its middle one and its last. Each call
//! takes constant time.

ghost use Rattle.std.specs.Prelude.{◌≡◌, ◌≤◌, length, take, IsTrue, bytes_eq};
ghost use Rattle.wq_items.specs.Short.{is_short, last_four, short_number, is_tiny, tiny_number};

/// Whether there are four to eight bytes.
pub(crate) fn is_short(bytes: &[u8]) -> bool
    ensures { result ≡ is_short bytes.now }
{
    4 <= bytes.len() && bytes.len() <= 8
}

/// The first four bytes.
fn first_four(bytes: &[u8]) -> [u8; 4]
    requires { 4 ≤ length bytes.now }
    ensures { result ≡ take 4 bytes.now }
{
    [bytes[0], bytes[1], bytes[2], bytes[3]]
}

/// The last four bytes.
fn last_four(bytes: &[u8]) -> [u8; 4]
    requires { 4 ≤ length bytes.now }
    ensures { result ≡ last_four bytes.now }
{
    first_four(&bytes[bytes.len() - 4..])
}

/// The first four bytes and the last four as one number.
pub(crate) fn short_number(bytes: &[u8]) -> u64
    requires { 4 ≤ length bytes.now }
    ensures { result ≡ short_number bytes.now }
{
    let first = u32::from_le_bytes(first_four(bytes));
    let last = u32::from_le_bytes(last_four(bytes));
    u64::from(first) * 0x1_0000_0000 + u64::from(last)
}

/// Whether two short names of the same length are equal.
pub(crate) fn are_same_short(a: &[u8], b: &[u8]) -> bool
    requires long { length a.now ≡ length b.now }
    requires short { IsTrue (is_short a.now) }
    ensures { result ≡ bytes_eq a.now b.now }
{
    first_four(a) == first_four(b) && last_four(a) == last_four(b)
}

/// Whether there are one to three bytes.
pub(crate) fn is_tiny(bytes: &[u8]) -> bool
    ensures { result ≡ is_tiny bytes.now }
{
    1 <= bytes.len() && bytes.len() <= 3
}

/// The first byte, the middle one and the last as one number.
pub(crate) fn tiny_number(bytes: &[u8]) -> u32
    requires { IsTrue (is_tiny bytes.now) }
    ensures { result ≡ tiny_number bytes.now }
{
    let first = u32::from(bytes[0]);
    let middle = u32::from(bytes[bytes.len() / 2]);
    let last = u32::from(bytes[bytes.len() - 1]);
    first * 0x1_0000 + middle * 0x100 + last
}

/// Whether two tiny names of the same length are equal.
pub(crate) fn are_same_tiny(a: &[u8], b: &[u8]) -> bool
    requires long { length a.now ≡ length b.now }
    requires tiny { IsTrue (is_tiny a.now) }
    ensures { result ≡ bytes_eq a.now b.now }
{
    let (middle, last) = (a.len() / 2, a.len() - 1);
    a[0] == b[0] && a[middle] == b[middle] && a[last] == b[last]
}
