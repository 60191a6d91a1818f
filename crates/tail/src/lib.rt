// The tail: the bytes that wait for the plaintext's end.
// What a piece makes of it and of the CMAC chain over the blocks before it.
#![tactic(auto)]

ghost use Rattle.std.specs.Prelude.{◌≡◌, ◌++◌, ◌+◌, ◌*◌, ◌^◌, ◌≤◌, ◌<◌, length, drop};
ghost use Rattle.aes.specs.Keyed.{under, enciphers};
ghost use Rattle.aes.specs.Work.{Reports};
ghost use Rattle.cmac.specs.Cmac.{chain, chain_work};
ghost use Rattle.s2v.specs.S2v.{tail_length};
ghost use Rattle.tail.specs.Tail.{tail_of, AfterPiece};

use aes::{Cipher, Counted, Engine, ExpandedKey};
use octets::Block;

// The bytes that wait for the plaintext's end, and zeros behind them. How many are used stands in a field beside it:
// a state has fixed memory, and its fields are public.
pub type Tail = [u8; 31];

// What a piece of plaintext leaves: the chain with its work, how many bytes there are in all, the tail and its length.
#[derive(Clone, Copy)]
pub struct Absorbed {
    pub chain: Counted,
    pub total: usize,
    pub tail_len: usize,
    pub tail: Tail,
}

// The chain from c over the first n blocks of two joined strings, at most two.
fn chain_front(cipher: Cipher, c: Block, a: &[u8], b: &[u8], n: usize) -> Counted
    requires { (n ≤ 2) × (16 * n ≤ length a.now + length b.now) }
    ensures { Reports (chain (enciphers cipher.entry) c (a.now ++ b.now) n) (chain_work n) result }
{
    let mut front = [0u8; 32];
    octets::copy_joined(&mut front, a, b, 0, 16 * n);
    cmac::chain_blocks(cipher, c, &front, n)
}

// The chain from c over the first n blocks of two joined strings: the first string ends within two blocks, and those
// behind them are the second's own. Where there is no block, no table is built.
#[tactic(auto, using(cmac::proofs::Laws::chain_work_lem), unfolding(cmac::specs::Cmac::chain, cmac::specs::Cmac::chain_work))]
fn chain_joined(key: ExpandedKey, c: Block, a: &[u8], b: &[u8], n: usize) -> Counted
    requires { (length a.now ≤ 32) × (16 * n ≤ length a.now + length b.now) }
    ensures { Reports (chain (under key.entry) c (a.now ++ b.now) n) (chain_work n) result }
{
    if n == 0 {
        return Counted { block: c, work: 0 };
    }
    let engine = Engine::new();
    let cipher = Cipher {
        engine: &engine,
        key,
    };
    if n <= 2 {
        return chain_front(cipher, c, a, b, n);
    }
    let front = chain_front(cipher, c, a, b, 2);
    let rest = cmac::chain_blocks(cipher, front.block, &b[32 - a.len()..], n - 2);
    Counted {
        work: front.work + rest.work,
        ..rest
    }
}

// The last n bytes of two joined strings, from a place on, as a tail.
fn tail_joined(a: &[u8], b: &[u8], at: usize, n: usize) -> Tail
    requires { (at + n ≡ length a.now + length b.now) × (n < 32) }
    ensures { result ≡ tail_of (drop at (a.now ++ b.now)) }
{
    let mut tail = [0u8; 31];
    octets::copy_joined(&mut tail, a, b, at, n);
    tail
}

// What a piece makes of the tail of total bytes, of which so many are used, and of the chain c over the blocks before:
// of tail and piece, n blocks go into the chain, and what is left is the tail.
pub fn absorb(
    key: ExpandedKey,
    c: Block,
    total: usize,
    tail: Tail,
    used: usize,
    piece: &[u8],
) -> Absorbed
    requires { (used ≡ tail_length total) × (total + length piece.now < 2 ^ 64) }
    ensures { AfterPiece (under key.entry) c total tail piece.now result }
{
    let end = total + piece.len();
    let tail_len = s2v::tail_len(end);
    let n = (used + piece.len() - tail_len) / 16;
    let chain = chain_joined(key, c, &tail[0..used], piece, n);
    let left = tail_joined(&tail[0..used], piece, 16 * n, tail_len);
    Absorbed {
        chain,
        total: end,
        tail_len,
        tail: left,
    }
}
