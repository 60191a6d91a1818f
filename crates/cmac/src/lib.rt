// CMAC with a 16-byte tag, SP 800-38B.
#![tactic(auto)]

ghost use Rattle.std.specs.Prelude.{◌≡◌, ◌+◌, ◌*◌, ◌≤◌, ◌<◌, length};
ghost use Rattle.aes.specs.Keyed.{enciphers};
ghost use Rattle.aes.specs.Work.{Reports};
ghost use Rattle.octets.specs.Octets.{xors};
ghost use Rattle.cmac.specs.Cmac.{shifted, double, pad, last_block, blocks_before};
ghost use Rattle.cmac.specs.Cmac.{zero_cipher, zero_cipher_work, chain, chain_work};

use aes::{Cipher, Counted};
use octets::Block;

// K1 and K2.
#[derive(Clone, Copy)]
pub struct Subkeys {
    pub k1: Block,
    pub k2: Block,
}

// What a MAC is made with.
#[derive(Clone, Copy)]
pub struct Mac<'e, 'k> {
    pub cipher: Cipher<'e, 'k>,
    pub subkeys: Subkeys,
}

// SP 800-38B, 5.3: R for blocks of 128 bits.
const R: Block = [0, 0, 0, 0, 0, 0, 0, 0, 0, 0, 0, 0, 0, 0, 0, 0x87];

// A block moved left by one bit. It is lent, since of a lent array a proof knows that each item is a byte.
#[tactic(auto, using(crate::proofs::Shift::shifted_block))]
fn shift_left(b: &Block) -> Block
    ensures { result ≡ shifted b.now }
{
    (u128::from_be_bytes(*b) << 1).to_be_bytes()
}

// A block doubled.
#[tactic(auto, unfolding(crate::specs::Cmac::double))]
pub fn double(b: Block) -> Block
    ensures { result ≡ double b }
{
    let s = shift_left(&b);
    if b[0] < 128 {
        return s;
    }
    octets::xor_block(s, R)
}

// L: the cipher of the zero block.
pub fn zero_cipher(cipher: Cipher) -> Counted
    ensures { Reports (zero_cipher (enciphers cipher.entry)) zero_cipher_work result }
{
    cipher.encrypt([0u8; 16])
}

impl Subkeys {
    ghost use Rattle.cmac.specs.Cmac.{subkeys};

    // The subkeys of L.
    #[tactic(auto, unfolding(crate::specs::Cmac::subkeys))]
    pub fn of(l: Block) -> Subkeys
        ensures { result ≡ subkeys l }
    {
        let k1 = double(l);
        let k2 = double(k1);
        Subkeys { k1, k2 }
    }
}

// A block with a short string, and then one byte 80, xored into its front.
pub fn xor_padded(c: Block, s: &[u8]) -> Block
    requires { length s.now < 16 }
    ensures { result ≡ xors c (pad s.now) }
{
    let mut r = c;
    for i in 0..s.len() {
        r[i] ^= s[i];
    }
    r[s.len()] ^= 0x80;
    r
}

// The chain c with the last block and its subkey xored in.
fn xor_last(k: Subkeys, c: Block, s: &[u8]) -> Block
    requires { length s.now ≤ 16 }
    ensures { result ≡ xors c (last_block k s.now) }
{
    if s.len() == 16 {
        return octets::xor_block(c, octets::xor_block(octets::load(s, 0), k.k1));
    }
    octets::xor_block(xor_padded(c, s), k.k2)
}

// The chain from c over the first n blocks of a slice. n stands beside it: callers chain the front of a longer string.
#[tactic(auto, using(crate::proofs::Laws::chain_work_lem), unfolding(crate::specs::Cmac::chain, crate::specs::Cmac::chain_work))]
pub fn chain_blocks(cipher: Cipher, c: Block, s: &[u8], n: usize) -> Counted
    requires { 16 * n ≤ length s.now }
    ensures { Reports (chain (enciphers cipher.entry) c s.now n) (chain_work n) result }
{
    let mut chained = Counted { block: c, work: 0 };
    for i in 0..n {
        let next = cipher.encrypt(octets::xor_block(chained.block, octets::load(s, 16 * i)));
        chained = Counted {
            work: chained.work + next.work,
            ..next
        };
    }
    chained
}

// How many blocks stand before the last one of n bytes.
fn blocks_before(n: usize) -> usize
    ensures { result ≡ blocks_before n }
{
    n.saturating_sub(1) / 16
}

// The chain from c over the n blocks before a slice's last: where there is none it is c, without a call of `chain_blocks`.
#[tactic(auto, unfolding(crate::specs::Cmac::chain, crate::specs::Cmac::chain_work))]
fn chain_before(cipher: Cipher, c: Block, s: &[u8], n: usize) -> Counted
    requires { 16 * n ≤ length s.now }
    ensures { Reports (chain (enciphers cipher.entry) c s.now n) (chain_work n) result }
{
    if n == 0 {
        return Counted { block: c, work: 0 };
    }
    chain_blocks(cipher, c, s, n)
}

impl Mac<'_, '_> {
    ghost use Rattle.aes.specs.Keyed.{enciphers};
    ghost use Rattle.cmac.specs.Cmac.{IsCmacFrom};

    // CMAC of what was chained to c and then of s.
    pub fn cmac_from(self, c: Block, s: &[u8]) -> Counted
        ensures { IsCmacFrom (enciphers self.entry.cipher) self.entry.subkeys c s.now result }
    {
        let n = blocks_before(s.len());
        let before = chain_before(self.cipher, c, s, n);
        let last = xor_last(self.subkeys, before.block, &s[16 * n..]);
        let end = self.cipher.encrypt(last);
        Counted {
            work: before.work + end.work,
            ..end
        }
    }
}
