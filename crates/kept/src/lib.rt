// The key stream piece by piece: from a place on, what the block that was kept there has left comes first.
#![tactic(auto)]

ghost use Rattle.std.specs.Prelude.{◌≡◌, cond, ◌+◌, ◌%◌, ◌^◌, ◌≤◌, min, eqb, length};
ghost use Rattle.aes.specs.Keyed.{under};
ghost use Rattle.keystream.specs.Pieces.{no_block, left_over, XorsPiece};

use aes::{Cipher, Counted, Engine, ExpandedKey};
use octets::Block;

// How many of n bytes, from byte place of the key stream on, a kept block has a byte for.
fn from_kept(place: usize, n: usize) -> usize
    ensures { result ≡ min (left_over place) n }
{
    ((16 - place % 16) % 16).min(n)
}

// The block that is kept where no other was begun: none once it is used up.
fn still_kept(kept: Block, end: usize) -> Block
    ensures { result ≡ cond (eqb (end % 16) 0) no_block kept }
{
    if end % 16 == 0 {
        return [0u8; 16];
    }
    kept
}

// Writes a piece, xored with the key stream from a place of it on, at place at of a slice: what the kept block has
// for it, then new blocks; where none is needed, no table is built. Gives the block that is kept then, and the work.
// Slice and place are two: the clause speaks of all that is lent.
pub fn xor_piece(
    key: ExpandedKey,
    v: Block,
    kept: Block,
    place: usize,
    piece: &[u8],
    dst: &mut [u8],
    at: usize,
) -> Counted
    requires { (place + length piece.now ≤ 2 ^ 61) × (at + length piece.now ≤ length dst.old) }
    ensures { XorsPiece (under key.entry) v kept place piece dst at result }
{
    let n = from_kept(place, piece.len());
    octets::xor_at(dst, at, &piece[..n], &kept[place % 16..]);
    if n == piece.len() {
        return Counted {
            block: still_kept(kept, place + n),
            work: 0,
        };
    }
    let engine = Engine::new();
    let cipher = Cipher {
        engine: &engine,
        key,
    };
    keystream::xor_from(cipher, v, (place + n) / 16, &piece[n..], dst, at + n)
}
