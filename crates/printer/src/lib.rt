// Text and bytes in hexadecimal on standard output, for the programs that run test vectors.
#![tactic(auto)]

use std::io;

// Writes text as it is.
pub fn text(out: &impl Print, t: &[u8]) -> io::Result<()> {
    out.write_all(t)
}

// Writes bytes in hexadecimal, two digits each.
pub fn hex(out: &impl Print, bytes: &[u8]) -> io::Result<()> {
    for b in bytes {
        print!(out; "{b:02x}")?;
    }
    Ok(())
}

// Writes a label, a space, bytes in hexadecimal and a line end.
pub fn line(out: &impl Print, label: &[u8], bytes: &[u8]) -> io::Result<()> {
    text(out, label)?;
    text(out, b" ")?;
    hex(out, bytes)?;
    text(out, b"\n")
}

// Writes bytes in hexadecimal, sixteen to a line; of no bytes one empty row.
pub fn rows(out: &impl Print, bytes: &[u8]) -> io::Result<()> {
    if bytes.is_empty() {
        return line(out, b"   ", bytes);
    }
    for row in bytes.chunks(16) {
        line(out, b"   ", row)?;
    }
    Ok(())
}

// Writes a number in decimal and a line end.
pub fn number(out: &impl Print, n: usize) -> io::Result<()> {
    println!(out; "{n}")
}
