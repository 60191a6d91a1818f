// S2V, RFC 5297 2.4: the header result D and the tag V.
#![tactic(auto)]

ghost use Rattle.std.specs.Prelude.{◌≡◌, ◌+◌, ◌≤◌, ◌<◌, ◌^◌, length};
ghost use Rattle.aes.specs.Keyed.{enciphers};
ghost use Rattle.aes.specs.Work.{Reports};
ghost use Rattle.octets.specs.Octets.{xors};
ghost use Rattle.cmac.specs.Cmac.{double, pad, cmac_work, IsCmacFrom};
ghost use Rattle.header.specs.Header.{total, strings_in};
ghost use Rattle.header.specs.List.{strings_of};
ghost use Rattle.s2v.specs.S2v.{xorend, tail_length, absorb_one, IsAbsorbed, IsHeaderResult, IsTagFrom, tag_from_work, tag};

use aes::Counted;
use cmac::Mac;
use header::Header;
use header::reader::Reader;
use octets::Block;

// D with one string more: D doubled, xored with the CMAC of the string, whose work is added.
#[tactic(auto, using(cmac::proofs::Laws::cmac_work_lem))]
fn absorb_string(mac: Mac, d: Counted, s: &[u8]) -> Counted
    requires { d.work ≤ 2 ^ 62 }
    ensures { Reports (absorb_one (enciphers mac.entry.cipher) mac.entry.subkeys d.block s.now) (d.work + cmac_work s.now) result }
{
    let string = mac.cmac_from([0u8; 16], s);
    Counted {
        block: octets::xor_block(cmac::double(d.block), string.block),
        work: d.work + string.work,
    }
}

// D from d on over the strings of a header list, and the work from d's on:
// one reader is made at the front and moved on over each string.
// Bytes and lengths come apart: a `Header` asks for at most 126 strings, and with no work before them 127 may come.
#[tactic(auto, using(header::proofs::Laws::total_next))]
pub fn absorb_strings(mac: Mac, d: Counted, bytes: &[u8], lens: &[u32]) -> Counted
    requires { (total lens.now ≤ length bytes.now) × (d.work + length lens.now ≤ 127) }
    ensures { IsAbsorbed (enciphers mac.entry.cipher) mac.entry.subkeys d (strings_in bytes lens) result }
{
    let mut b = d;
    let mut reader = Reader::new(bytes, 0);
    for i in 0..lens.len() {
        let n = header::length_at(lens, i);
        b = absorb_string(mac, b, reader.next(n));
        reader = reader.moved(n);
    }
    b
}

// D over the strings of a header list.
pub fn make_header_result(mac: Mac, header: Header) -> Counted
    ensures { IsHeaderResult (enciphers mac.entry.cipher) mac.entry.subkeys (strings_of header.entry) result }
{
    let zero = [0u8; 16];
    absorb_strings(mac, mac.cmac_from(zero, &zero), header.bytes, header.lens)
}

// How many bytes at the end of a plaintext of n bytes wait for its end.
#[tactic(auto, unfolding(crate::specs::S2v::tail_length))]
pub fn tail_len(n: usize) -> usize
    ensures { result ≡ tail_length n }
{
    if n < 16 {
        return n;
    }
    16 + n % 16
}

// V of a short plaintext, or of a short end. D, chain and end come one by one, as the standard has them.
fn tag_short(mac: Mac, d: Block, c: Block, p: &[u8]) -> Counted
    requires { length p.now < 16 }
    ensures { IsCmacFrom (enciphers mac.entry.cipher) mac.entry.subkeys c (xors (double d) (pad p.now)) result }
{
    mac.cmac_from(c, &cmac::xor_padded(cmac::double(d), p))
}

// V of an end of 16 to 31 bytes.
fn tag_long(mac: Mac, d: Block, c: Block, p: &[u8]) -> Counted
    requires { (16 ≤ length p.now) × (length p.now < 32) }
    ensures { IsCmacFrom (enciphers mac.entry.cipher) mac.entry.subkeys c (xorend p.now d) result }
{
    let at = p.len() - 16;
    let mut t = [0u8; 32];
    octets::copy_at(&mut t, 0, p);
    octets::xor_at(&mut t, at, &p[at..], &d);
    mac.cmac_from(c, &t[..p.len()])
}

// V, where c is the chain over the plaintext's blocks before its end.
#[tactic(auto, unfolding(crate::specs::S2v::last_string, crate::specs::S2v::tag_from, crate::specs::S2v::tag_from_work))]
pub fn tag_from(mac: Mac, d: Block, c: Block, p: &[u8]) -> Counted
    requires { length p.now < 32 }
    ensures { IsTagFrom (enciphers mac.entry.cipher) mac.entry.subkeys d c p.now result }
{
    if p.len() < 16 {
        return tag_short(mac, d, c, p);
    }
    tag_long(mac, d, c, p)
}

// V from D and the plaintext.
pub fn tag(mac: Mac, d: Block, p: &[u8]) -> Counted
    ensures { Reports (tag (enciphers mac.entry.cipher) mac.entry.subkeys d p.now) (tag_from_work d p.now) result }
{
    let at = p.len() - tail_len(p.len());
    let before = cmac::chain_blocks(mac.cipher, [0u8; 16], p, at / 16);
    let end = tag_from(mac, d, before.block, &p[at..]);
    Counted {
        work: before.work + end.work,
        ..end
    }
}
