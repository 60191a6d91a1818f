// Counter mode as AES-GCM-SIV has it, RFC 8452, section 4.
#![tactic(auto)]

ghost use Rattle.std.specs.Prelude.{◌≡◌, ◌+◌, ◌^◌, ◌≤◌, length};
ghost use Rattle.octets.specs.Octets.{xors, Writes};
ghost use Rattle.aes.specs.Keyed.{enciphers};
ghost use Rattle.gcm_ctr.specs.CounterMode.{initial_block, next_block, aes_ctr, aes_ctr_work};

use aes::Cipher;
use octets::Block;

// The initial counter block: the tag, with the top bit of its last byte set.
#[tactic(auto, using(crate::proofs::Laws::top_bit_set))]
pub fn initial_block(tag: Block) -> Block
    ensures { result ≡ initial_block tag }
{
    let mut block = tag;
    block[15] |= 0x80;
    block
}

// The counter block behind a block: the counter word plus 1, modulo 2^32; the other bytes as they are.
#[tactic(auto, using(crate::proofs::Laws::next_bytes))]
fn next_block(block: Block) -> Block
    ensures { result ≡ next_block block }
{
    let word = u32::from_le_bytes([block[0], block[1], block[2], block[3]]);
    let mut next = block;
    next[..4].copy_from_slice(&word.wrapping_add(1).to_le_bytes());
    next
}

// Writes a piece of at most a block, xored with the cipher of a counter block, at place at of dst; gives the work.
// Slice and place are two: the clause speaks of all that is lent.
fn xor_block(cipher: Cipher, block: Block, piece: &[u8], dst: &mut [u8], at: usize) -> usize
    requires { (length piece.now ≤ 16) × (at + length piece.now ≤ length dst.old) }
    ensures work { result ≡ 1 }
    ensures text { Writes dst at (xors piece.now (enciphers cipher.entry block)) }
{
    let made = cipher.encrypt(block);
    octets::xor_at(dst, at, piece, &made.block);
    made.work
}

// Writes src, xored with the key stream from a counter block on, to the front of dst; gives the work.
pub fn xor_stream(cipher: Cipher, block: Block, src: &[u8], dst: &mut [u8]) -> usize
    requires { (length src.now ≤ 2 ^ 60) × (length src.now ≤ length dst.old) }
    ensures work { result ≡ aes_ctr_work (length src.now) }
    ensures text { Writes dst 0 (aes_ctr (enciphers cipher.entry) block src.now) }
{
    let mut counter = block;
    let mut work = 0;
    for (j, piece) in src.chunks(16).enumerate() {
        work += xor_block(cipher, counter, piece, dst, 16 * j);
        // A call's array is not put straight into a variable that lives on: the proof does not close.
        let next = next_block(counter);
        counter = next;
    }
    work
}
