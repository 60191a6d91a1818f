// Byte strings: blocks of 16 bytes by value, and parts of lent slices.
#![tactic(auto)]

ghost use Rattle.std.specs.Prelude.{◌≡◌, ◌++◌, ◌+◌, ◌≤◌, length, drop, replicate};
ghost use Rattle.octets.specs.Octets.{xors, part, same, all_zero, Writes};

// A block: 16 bytes, byte 0 first.
pub type Block = [u8; 16];

// Copies all of src to place at of a slice. No `copy_from_slice`: of a length that is not fixed it is the C library's
// `memmove`, and the archive asks for `memcpy` and `memset` alone.
pub fn copy_at(dst: &mut [u8], at: usize, src: &[u8])
    requires { at + length src.now ≤ length dst.old }
    ensures { Writes dst at src.now }
{
    for i in 0..src.len() {
        dst[at + i] = src[i];
    }
}

// Copies n bytes from a place of two joined strings to the front of a slice.
pub fn copy_joined(dst: &mut [u8], a: &[u8], b: &[u8], at: usize, n: usize)
    requires { (n ≤ length dst.old) × (at + n ≤ length a.now + length b.now) }
    ensures { Writes dst 0 (part (a.now ++ b.now) at n) }
{
    if a.len() <= at {
        let from = at - a.len();
        copy_at(dst, 0, &b[from..from + n]);
        return;
    }
    let k = a.len() - at;
    if n <= k {
        copy_at(dst, 0, &a[at..at + n]);
        return;
    }
    copy_at(dst, 0, &a[at..]);
    copy_at(dst, k, &b[..n - k]);
}

// Writes n zeros at place at of a slice.
#[tactic(auto, using(crate::proofs::Strings::put_mid_put))]
pub fn zero_at(dst: &mut [u8], at: usize, n: usize)
    requires { at + n ≤ length dst.old }
    ensures { Writes dst at (replicate n 0) }
{
    dst[at..at + n].fill(0);
}

// Writes all of src, xored with the front of mask, at place at of a slice.
pub fn xor_at(dst: &mut [u8], at: usize, src: &[u8], mask: &[u8])
    requires { (at + length src.now ≤ length dst.old) × (length src.now ≤ length mask.now) }
    ensures { Writes dst at (xors src.now mask.now) }
{
    for i in 0..src.len() {
        dst[at + i] = src[i] ^ mask[i];
    }
}

// The block at place at of a slice.
pub fn load(src: &[u8], at: usize) -> Block
    requires { at + 16 ≤ length src.now }
    ensures { result ≡ part src.now at 16 }
{
    let mut block = [0u8; 16];
    block.copy_from_slice(&src[at..at + 16]);
    block
}

// Writes a block at place at of a slice.
pub fn store(dst: &mut [u8], at: usize, block: Block)
    requires { at + 16 ≤ length dst.old }
    ensures { Writes dst at block }
{
    copy_at(dst, at, &block);
}

// The xor of two blocks.
pub fn xor_block(a: Block, b: Block) -> Block
    ensures { result ≡ xors a b }
{
    let mut r = [0u8; 16];
    xor_at(&mut r, 0, &a, &b);
    r
}

// Whether two blocks are the same. No `==`: every byte is looked at, whatever was found (docs/DECISIONS.md).
pub fn same_block(a: Block, b: Block) -> bool
    ensures { result ≡ same a b }
{
    a.iter().zip(&b).fold(0, |bits, (x, y)| bits | (x ^ y)) == 0
}

// Whether the bytes of a slice from a place on are zero. No `all`: it reads every one of them, too.
pub fn zero_from(s: &[u8], at: usize) -> bool
    ensures { result ≡ all_zero (drop at s.now) }
{
    s[at.min(s.len())..].iter().fold(0, |bits, b| bits | b) == 0
}
