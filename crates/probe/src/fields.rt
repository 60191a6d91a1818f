// What a head and a state have alike, as bytes: a number is eight of them, the lowest first.
ghost use Rattle.std.specs.Prelude.{◌+◌, ◌≤◌, length};

// The N bytes at a place.
pub(crate) fn bytes_at<const N: usize>(s: &[u8], at: usize) -> [u8; N]
    requires { at + N ≤ length s.now }
{
    let mut bytes = [0u8; N];
    bytes.copy_from_slice(&s[at..at + N]);
    bytes
}

// The number at a place.
pub(crate) fn number_at(s: &[u8], at: usize) -> usize
    requires { at + 8 ≤ length s.now }
{
    usize::from_le_bytes(bytes_at(s, at))
}

// Writes a number at a place.
pub(crate) fn put_number(s: &mut [u8], at: usize, n: usize)
    requires { at + 8 ≤ length s.old }
{
    octets::copy_at(s, at, &n.to_le_bytes());
}
