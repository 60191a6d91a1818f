// The header list: one buffer of bytes and a list of lengths; string i is the next lens[i] bytes.
#![tactic(auto)]

pub mod blocks;
pub mod reader;

ghost use Rattle.std.specs.Prelude.{◌≡◌, ◌<◌, eqb, ltb, length, get_or};
ghost use Rattle.header.specs.Header.{total, Walkable};

// The most header strings that RFC 5297 allows.
pub const MOST: usize = 126;

// A header list: the strings lie one behind the other in the bytes, and there are at most 126.
#[derive(Clone, Copy)]
pub struct Header<'a> {
    pub bytes: &'a [u8],
    pub lens: &'a [u32],
    pub ghost walkable: { Walkable bytes.now lens.now },
}

// Whether a list of count strings is too long.
pub fn too_many(count: usize) -> bool
    ensures { result ≡ ltb 126 count }
{
    MOST < count
}

// The length of string i.
pub fn length_at(lens: &[u32], i: usize) -> usize
    requires { i < length lens.now }
    ensures { result ≡ get_or lens.now i 0 }
{
    lens[i] as usize
}

// Whether the lengths sum to n, which is no count of them. It ends early where a length is more than is left.
#[tactic(auto, using(crate::proofs::Laws::total_more, crate::proofs::Laws::total_next), unfolding(crate::specs::Header::total))]
pub fn sums_to(lens: &[u32], n: usize) -> bool
    ensures { result ≡ eqb (total lens.now) n }
{
    let mut rest = n;
    for i in 0..lens.len() {
        let len = length_at(lens, i);
        if rest < len {
            return false;
        }
        rest -= len;
    }
    rest == 0
}
