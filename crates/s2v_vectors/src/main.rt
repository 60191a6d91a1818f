// RFC 5297's appendix A, with every value that it prints on the way.
#![tactic(auto, unfolding(aes::specs::Aes::is_width, header::specs::Header::total))]

ghost use Rattle.std.specs.Prelude.{◌≤◌, ◌<◌, length};

use aes::{Cipher, Engine, ExpandedKey, RoundKeys};
use cmac::{Mac, Subkeys};
use header::Header;
use octets::Block;
use rfc5297::{A1_AD, A1_KEY, A1_PLAINTEXT, A2_HEADER, A2_KEY, A2_LENS, A2_PLAINTEXT};
use std::io;

// Prints the CMAC of the zero block.
fn start(out: &impl Print, mac: Mac) -> io::Result<Block> {
    let zero = [0u8; 16];
    let d = mac.cmac_from(zero, &zero).block;
    printer::line(out, b"    CMAC(zero)", &d)?;
    Ok(d)
}

// Prints D with one string more.
fn string(out: &impl Print, mac: Mac, d: Block, s: &[u8]) -> io::Result<Block> {
    let doubled = cmac::double(d);
    let t = mac.cmac_from([0u8; 16], s).block;
    let next = octets::xor_block(doubled, t);
    printer::line(out, b"    double", &doubled)?;
    printer::line(out, b"    CMAC", &t)?;
    printer::line(out, b"    xor", &next)?;
    Ok(next)
}

// Prints the end of a short plaintext.
fn short_end(out: &impl Print, d: Block, p: &[u8]) -> io::Result<()>
    requires { length p.now < 16 }
{
    let doubled = cmac::double(d);
    printer::line(out, b"    double", &doubled)?;
    printer::line(out, b"    pad", &cmac::xor_padded([0u8; 16], p))?;
    printer::line(out, b"    xor", &cmac::xor_padded(doubled, p))
}

// Prints the end of a plaintext of 16 bytes or more.
fn long_end(out: &impl Print, d: Block, p: &[u8]) -> io::Result<()>
    requires { (16 ≤ length p.now) × (length p.now ≤ 64) }
{
    let at = p.len() - 16;
    let mut t = [0u8; 64];
    octets::copy_at(&mut t, 0, p);
    octets::xor_at(&mut t, at, &p[at..], &d);
    printer::line(out, b"    xorend", &t[..p.len()])
}

// Prints the counter blocks of a plaintext of up to 64 bytes under a tag, each with its cipher, and the ciphertext.
fn text(out: &impl Print, cipher: Cipher, v: Block, p: &[u8]) -> io::Result<()>
    requires { length p.now ≤ 64 }
{
    let q = counter::initial_counter(v);
    for i in 0..p.len().div_ceil(16) {
        let b = counter::counter_block(q, i as u64);
        printer::line(out, b"    CTR", &b)?;
        printer::line(out, b"    E(K,CTR)", &cipher.encrypt(b).block)?;
    }
    let mut c = [0u8; 64];
    keystream::xor_from(cipher, v, 0, p, &mut c, 0);
    printer::line(out, b"    ciphertext", &c[..p.len()])
}

// The cipher under the round keys of a 16-byte key.
fn cipher_under<'e, 'k>(engine: &'e Engine, round_keys: &'k RoundKeys) -> Cipher<'e, 'k> {
    let key = ExpandedKey {
        width: 16,
        round_keys,
    };
    Cipher { engine, key }
}

// What a MAC under those round keys is made with.
fn mac_under<'e, 'k>(engine: &'e Engine, round_keys: &'k RoundKeys) -> Mac<'e, 'k> {
    let cipher = cipher_under(engine, round_keys);
    let subkeys = Subkeys::of(cmac::zero_cipher(cipher).block);
    Mac { cipher, subkeys }
}

// Prints the tag of A.1.
fn a1_tag(out: &impl Print, mac: Mac) -> io::Result<Block> {
    let d = string(out, mac, start(out, mac)?, &A1_AD)?;
    short_end(out, d, &A1_PLAINTEXT)?;
    let v = s2v::tag(mac, d, &A1_PLAINTEXT).block;
    printer::line(out, b"    CMAC(final)", &v)?;
    Ok(v)
}

// Prints D over the strings of A.2, one after the other.
fn a2_header(out: &impl Print, mac: Mac) -> io::Result<()> {
    let mut d = start(out, mac)?;
    for s in [&A2_HEADER[..40], &A2_HEADER[40..50], &A2_HEADER[50..]] {
        d = string(out, mac, d, s)?;
    }
    Ok(())
}

// Prints the tag of A.2.
fn a2_tag(out: &impl Print, mac: Mac) -> io::Result<Block> {
    a2_header(out, mac)?;
    let header = Header {
        bytes: &A2_HEADER,
        lens: &A2_LENS,
    };
    let d = s2v::make_header_result(mac, header).block;
    long_end(out, d, &A2_PLAINTEXT)?;
    let v = s2v::tag(mac, d, &A2_PLAINTEXT).block;
    printer::line(out, b"    CMAC(final)", &v)?;
    Ok(v)
}

// Prints an example: its tag under the first half of the key, which `tag` prints, and the rest under the second.
fn example<F: FnOnce(Mac) -> io::Result<Block>>(
    out: &impl Print,
    engine: &Engine,
    label: &[u8],
    key: &[u8; 32],
    p: &[u8],
    tag: F,
) -> io::Result<()>
    requires callable { F.IsAlwaysCallable tag }
    requires short { length p.now ≤ 64 }
{
    printer::text(out, label)?;
    let mac_keys = aes::round_keys(engine, &key[..16]);
    let v = tag(mac_under(engine, &mac_keys))?;
    let ctr_keys = aes::round_keys(engine, &key[16..]);
    text(out, cipher_under(engine, &ctr_keys), v, p)
}

fn main(rt: HostRuntime) -> io::Result<()> {
    let engine = Engine::new();
    example(
        &rt,
        &engine,
        b"A.1\n",
        &A1_KEY,
        &A1_PLAINTEXT,
        |mac| a1_tag(&rt, mac),
    )?;
    example(
        &rt,
        &engine,
        b"A.2\n",
        &A2_KEY,
        &A2_PLAINTEXT,
        |mac| a2_tag(&rt, mac),
    )
}
