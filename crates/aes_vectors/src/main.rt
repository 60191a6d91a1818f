// FIPS 197's worked examples: the key expansions of appendix A, the cipher of appendices B and C,
// and keys of lengths that are refused.
#![tactic(auto)]

use aes::{Cipher, Engine, ExpandedKey};
use fips197::{A1_KEY, A2_KEY, A3_KEY};
use octets::Block;
use std::io;

// Appendix B's input; its key is A.1's.
const B: Block = [
    0x32, 0x43, 0xf6, 0xa8, 0x88, 0x5a, 0x30, 0x8d, 0x31, 0x31, 0x98, 0xa2, 0xe0, 0x37, 0x07, 0x34,
];

// Appendix C's input, and its longest key, of which the others are the first bytes.
const C: Block = [
    0x00, 0x11, 0x22, 0x33, 0x44, 0x55, 0x66, 0x77, 0x88, 0x99, 0xaa, 0xbb, 0xcc, 0xdd, 0xee, 0xff,
];

const C_KEY: [u8; 40] = [
    0x00, 0x01, 0x02, 0x03, 0x04, 0x05, 0x06, 0x07, 0x08, 0x09, 0x0a, 0x0b, 0x0c, 0x0d, 0x0e, 0x0f,
    0x10, 0x11, 0x12, 0x13, 0x14, 0x15, 0x16, 0x17, 0x18, 0x19, 0x1a, 0x1b, 0x1c, 0x1d, 0x1e, 0x1f,
    0x20, 0x21, 0x22, 0x23, 0x24, 0x25, 0x26, 0x27,
];

// Prints a key's expansion: all 240 bytes, so that the zeros past its own rounds show.
fn expansion(out: &impl Print, engine: &Engine, label: &[u8], key: &[u8]) -> io::Result<()> {
    printer::line(out, label, key)?;
    printer::rows(out, &aes::expand(engine, key).keys)
}

// Prints the cipher of a block under a key, or that the key is refused.
#[tactic(auto, using(aes::proofs::Widths::expanded_width))]
fn encryption(
    out: &impl Print,
    engine: &Engine,
    label: &[u8],
    key: &[u8],
    block: Block,
) -> io::Result<()> {
    printer::text(out, label)?;
    let e = aes::expand(engine, key);
    match e.answer {
        Err(_) => printer::line(out, b" refused: round keys", &e.keys),
        Ok(()) => {
            let key = ExpandedKey {
                width: key.len(),
                round_keys: &e.keys,
            };
            let cipher = Cipher { engine, key };
            printer::line(out, b"", &cipher.encrypt(block).block)
        }
    }
}

fn appendix_a(out: &impl Print, engine: &Engine) -> io::Result<()> {
    expansion(out, engine, b"A.1", &A1_KEY)?;
    expansion(out, engine, b"A.2", &A2_KEY)?;
    expansion(out, engine, b"A.3", &A3_KEY)
}

fn appendix_c(out: &impl Print, engine: &Engine) -> io::Result<()> {
    encryption(out, engine, b"C.1", &C_KEY[..16], C)?;
    encryption(out, engine, b"C.2", &C_KEY[..24], C)?;
    encryption(out, engine, b"C.3", &C_KEY[..32], C)
}

// Keys of lengths that are refused: the first bytes of appendix C's.
fn refused(out: &impl Print, engine: &Engine) -> io::Result<()> {
    for n in [0, 15, 17, 23, 25, 28, 31, 33] {
        print!(out; "{n} bytes")?;
        encryption(out, engine, b"", &C_KEY[..n], C)?;
    }
    Ok(())
}

fn main(rt: HostRuntime) -> io::Result<()> {
    let engine = Engine::new();
    appendix_a(&rt, &engine)?;
    encryption(&rt, &engine, b"B", &A1_KEY, B)?;
    appendix_c(&rt, &engine)?;
    refused(&rt, &engine)
}
