// The key stream under V, RFC 5297, xored into parts of lent slices.
#![tactic(auto)]

ghost use Rattle.std.specs.Prelude.{◌≡◌, ◌+◌, ◌*◌, ◌/◌, ◌^◌, ◌≤◌, length, take};
ghost use Rattle.octets.specs.Octets.{Writes};
ghost use Rattle.aes.specs.Keyed.{enciphers};
ghost use Rattle.aes.specs.Work.{Reports};
ghost use Rattle.counter.specs.Counter.{initial_counter, counter_block};
ghost use Rattle.keystream.specs.KeyStream.{stream_work, xor_stream};
ghost use Rattle.keystream.specs.Pieces.{no_block, XorsPiece};

use aes::{Cipher, Counted};
use octets::Block;

// Writes src, of at most 16 bytes, xored with block i of the key stream, at place at of a slice; gives the block.
// Slice and place are two, here and below: the clauses speak of all that is lent. So are V and i: each has its own i.
fn xor_with_block(
    cipher: Cipher,
    v: Block,
    i: u64,
    src: &[u8],
    dst: &mut [u8],
    at: usize,
) -> Counted
    requires { (length src.now ≤ 16) × (at + length src.now ≤ length dst.old) }
    ensures block { Reports (enciphers cipher.entry (counter_block (initial_counter v) i)) 1 result }
    ensures text { Writes dst at (xor_stream (enciphers cipher.entry) v (16 * i) src.now) }
{
    let made = cipher.encrypt(counter::counter_block(counter::initial_counter(v), i));
    octets::xor_at(dst, at, src, &made.block);
    made
}

// Writes the whole blocks of src, xored with the key stream from block i on, at place at of a slice; gives the work.
fn xor_blocks(cipher: Cipher, v: Block, i: usize, src: &[u8], dst: &mut [u8], at: usize) -> usize
    requires { (i ≤ 2 ^ 61) × (at + length src.now ≤ length dst.old) }
    ensures work { result ≡ stream_work (length src.now / 16) }
    ensures text { Writes dst at (xor_stream (enciphers cipher.entry) v (16 * i) (take (16 * (length src.now / 16)) src.now)) }
{
    let mut work = 0;
    for (j, block) in src.chunks_exact(16).enumerate() {
        work += xor_with_block(cipher, v, (i + j) as u64, block, dst, at + 16 * j).work;
    }
    work
}

// Writes src, xored with the key stream from block i on, at place at of a slice: whole blocks, then the short end.
// Gives the block that the end begins, zeros where it is whole, and the work.
#[tactic(auto, using(crate::proofs::Laws::stream_work_lem))]
pub fn xor_from(
    cipher: Cipher,
    v: Block,
    i: usize,
    src: &[u8],
    dst: &mut [u8],
    at: usize,
) -> Counted
    requires { (i ≤ 2 ^ 61) × (at + length src.now ≤ length dst.old) }
    ensures { XorsPiece (enciphers cipher.entry) v no_block (16 * i) src dst at result }
{
    let n = src.len() / 16;
    let work = xor_blocks(cipher, v, i, src, dst, at);
    if src.len() % 16 == 0 {
        return Counted {
            block: [0u8; 16],
            work,
        };
    }
    let end = xor_with_block(cipher, v, (i + n) as u64, &src[16 * n..], dst, at + 16 * n);
    Counted {
        work: work + end.work,
        ..end
    }
}
