// SP 800-38B's examples of CMAC with AES: the subkeys, and the tags of 0, 16, 40 and 64 bytes, for the three widths.
#![tactic(auto)]

use aes::{Cipher, Engine, ExpandedKey};
use cmac::{Mac, Subkeys};
use fips197::{A1_KEY, A2_KEY, A3_KEY};
use std::io;

// The longest message, of which the others are the first bytes.
const MESSAGE: [u8; 64] = [
    0x6b, 0xc1, 0xbe, 0xe2, 0x2e, 0x40, 0x9f, 0x96, 0xe9, 0x3d, 0x7e, 0x11, 0x73, 0x93, 0x17, 0x2a,
    0xae, 0x2d, 0x8a, 0x57, 0x1e, 0x03, 0xac, 0x9c, 0x9e, 0xb7, 0x6f, 0xac, 0x45, 0xaf, 0x8e, 0x51,
    0x30, 0xc8, 0x1c, 0x46, 0xa3, 0x5c, 0xe4, 0x11, 0xe5, 0xfb, 0xc1, 0x19, 0x1a, 0x0a, 0x52, 0xef,
    0xf6, 0x9f, 0x24, 0x45, 0xdf, 0x4f, 0x9b, 0x17, 0xad, 0x2b, 0x41, 0x7b, 0xe6, 0x6c, 0x37, 0x10,
];

// Prints the tags of the first 0, 16, 40 and 64 bytes of the message.
fn tags(out: &impl Print, mac: Mac) -> io::Result<()> {
    for n in [0, 16, 40, 64] {
        print!(out; "{n:6}")?;
        printer::line(out, b"", &mac.cmac_from([0u8; 16], &MESSAGE[..n]).block)?;
    }
    Ok(())
}

// Prints the subkeys.
fn print_subkeys(out: &impl Print, k: Subkeys) -> io::Result<()> {
    printer::line(out, b"    K1", &k.k1)?;
    printer::line(out, b"    K2", &k.k2)
}

// Prints the examples of one key.
#[tactic(auto, using(aes::proofs::Widths::expanded_width))]
fn examples(out: &impl Print, engine: &Engine, label: &[u8], key: &[u8]) -> io::Result<()> {
    printer::line(out, label, key)?;
    let e = aes::expand(engine, key);
    if let Ok(()) = e.answer {
        let key = ExpandedKey {
            width: key.len(),
            round_keys: &e.keys,
        };
        let cipher = Cipher { engine, key };
        let subkeys = Subkeys::of(cmac::zero_cipher(cipher).block);
        print_subkeys(out, subkeys)?;
        tags(out, Mac { cipher, subkeys })?;
    }
    Ok(())
}

fn main(rt: HostRuntime) -> io::Result<()> {
    let engine = Engine::new();
    examples(&rt, &engine, b"AES-128", &A1_KEY)?;
    examples(&rt, &engine, b"AES-192", &A2_KEY)?;
    examples(&rt, &engine, b"AES-256", &A3_KEY)
}
