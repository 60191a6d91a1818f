// RFC 5297's appendix A sealed and opened, under the example's key and under a ring of both keys,
// and each sealed string with one bit of each byte changed in turn.
#![tactic(auto)]

ghost use Rattle.std.specs.Prelude.{◌≤◌, ◌<◌, length};

use answers::Refusal;
use rfc5297::{A1_AD, A1_KEY, A1_LENS, A1_PLAINTEXT, A2_HEADER, A2_KEY, A2_LENS, A2_PLAINTEXT};
use std::io;

// The key and the header list of an example.
#[derive(Clone, Copy)]
struct Example<'a> {
    key: &'a [u8],
    header: &'a [u8],
    lens: &'a [u32],
}

// A string that sealing gave: a tag, and a ciphertext of 48 bytes at most behind it.
#[derive(Clone, Copy)]
struct Sealed<'a> {
    bytes: &'a [u8],
    ghost fits: { (16 ≤ length bytes.now) × (length bytes.now ≤ 64) },
}

impl Example<'_> {
    // Whether a string with a bit of byte i changed is refused as forged, and its plaintext's place wiped.
    fn refused_at(&self, sealed: Sealed, i: usize) -> bool
        requires { i < length sealed.bytes.now }
    {
        let n = sealed.bytes.len();
        let mut damaged = [0u8; 64];
        damaged[..n].copy_from_slice(sealed.bytes);
        damaged[i] ^= 1;
        let mut output = [0xffu8; 64];
        let mut scratch = [0xffu8; 64];
        let report = siv::open(
            self.key,
            self.header,
            self.lens,
            &damaged[..n],
            &mut output,
            &mut scratch,
        );
        let wiped = output[..n - 16].iter().all(|byte| *byte == 0);
        report.answer == Err(Refusal::Forged) && wiped
    }

    // How many bytes from the front on make a sealed string refused when they are changed.
    fn count_refused(&self, sealed: Sealed) -> usize {
        for i in 0..sealed.bytes.len() {
            if !self.refused_at(sealed, i) {
                return i;
            }
        }
        sealed.bytes.len()
    }

    // Prints what opening gives under the key.
    fn by_key(&self, out: &impl Print, sealed: Sealed) -> io::Result<()> {
        let mut output = [0u8; 64];
        let mut scratch = [0u8; 64];
        siv::open(
            self.key,
            self.header,
            self.lens,
            sealed.bytes,
            &mut output,
            &mut scratch,
        );
        printer::line(out, b"    opened", &output[..sealed.bytes.len() - 16])
    }

    // Prints what opening gives under a ring of keys of 32 bytes, and the slot.
    fn by_ring(&self, out: &impl Print, ring: &[u8], sealed: Sealed) -> io::Result<()> {
        let mut output = [0u8; 64];
        let mut scratch = [0u8; 64];
        let opened = ring::open_ring(
            32,
            ring,
            self.header,
            self.lens,
            sealed.bytes,
            &mut output,
            &mut scratch,
        );
        let plain = &output[..sealed.bytes.len() - 16];
        printer::line(out, b"    opened by the ring", plain)?;
        printer::text(out, b"    by the key in slot ")?;
        printer::number(out, opened.slot)
    }

    // Prints what sealing and opening give, and how many changed bytes are refused.
    fn show(&self, out: &impl Print, ring: &[u8], p: &[u8]) -> io::Result<()>
        requires { length p.now ≤ 48 }
    {
        let mut sealed = [0u8; 64];
        let mut scratch = [0u8; 64];
        siv::seal(
            self.key,
            self.header,
            self.lens,
            p,
            &mut sealed,
            &mut scratch,
        );
        let sealed = Sealed {
            bytes: &sealed[..p.len() + 16],
        };
        printer::line(out, b"    sealed", sealed.bytes)?;
        self.by_key(out, sealed)?;
        self.by_ring(out, ring, sealed)?;
        printer::text(
            out,
            b"    bytes that were changed and refused, their place wiped: ",
        )?;
        printer::number(out, self.count_refused(sealed))
    }
}

fn main(rt: HostRuntime) -> io::Result<()> {
    let mut ring = [0u8; 64];
    ring[..32].copy_from_slice(&A1_KEY);
    ring[32..].copy_from_slice(&A2_KEY);
    let a1 = Example {
        key: &A1_KEY,
        header: &A1_AD,
        lens: &A1_LENS,
    };
    let a2 = Example {
        key: &A2_KEY,
        header: &A2_HEADER,
        lens: &A2_LENS,
    };
    printer::text(&rt, b"A.1\n")?;
    a1.show(&rt, &ring, &A1_PLAINTEXT)?;
    printer::text(&rt, b"A.2\n")?;
    a2.show(&rt, &ring, &A2_PLAINTEXT)
}
