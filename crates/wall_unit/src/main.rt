// A wall unit's records: gym, wall and lane go through the cipher once, in a head, and each record is sealed from it,
// its number behind them; then by the whole call, which goes through all four strings. Each is printed with its work.
#![tactic(auto)]

use head::Head;
use std::io;
use stream::Stream;
use whole::Report;

// The key, for show.
const KEY: &[u8; 32] = b"a key for show, not for real use";

// The header strings that each record begins with: gym, wall and lane.
const PLACE: &[u8; 30] = b"Boulder Hall NorthWall 3Lane 7";

// Their lengths, and that of the record's number.
const LENS: [u32; 4] = [18, 6, 6, 8];

// Seals a record behind the head's strings and its own number. If an earlier call was refused, write is refused too,
// perhaps with another number. The work is the sum over all calls; no count of blocks comes near the wrap.
fn seal(head: Head, number: &[u8], plain: &[u8], tag: &mut [u8], text: &mut [u8]) -> Report {
    let begun = Stream::begin_sealer_from(head, number, &[8]);
    let added = begun.state.add(plain);
    let turned = added.state.turn(tag);
    let written = turned.state.write(plain, text);
    let closed = written.state.close();
    let works = [
        begun.work,
        added.work,
        turned.work,
        written.work,
        closed.work,
    ];
    Report {
        answer: written.answer,
        work: works
            .iter()
            .fold(0, |sum: usize, work| sum.wrapping_add(*work)),
    }
}

// Ends a line with a call's work.
fn print_work(out: &impl Print, blocks: usize) -> io::Result<()> {
    printer::text(out, b", blocks: ")?;
    printer::number(out, blocks)
}

// Prints a record sealed from the head, if no call was refused.
fn from_head(out: &impl Print, head: Head, number: &[u8], plain: &[u8]) -> io::Result<()> {
    let mut tag = [0u8; 16];
    let mut text = [0u8; 40];
    let report = seal(head, number, plain, &mut tag, &mut text);
    if report.answer.is_ok() {
        printer::text(out, number)?;
        printer::text(out, b" ")?;
        printer::hex(out, &tag)?;
        printer::hex(out, &text)?;
        print_work(out, report.work)?;
    }
    Ok(())
}

// Prints it sealed by the whole call.
fn whole(out: &impl Print, number: &[u8; 8], plain: &[u8]) -> io::Result<()> {
    let mut header = [0u8; 38];
    header[..30].copy_from_slice(PLACE);
    header[30..].copy_from_slice(number);
    let mut sealed = [0u8; 56];
    let mut scratch = [0u8; 40];
    let report = siv::seal(KEY, &header, &LENS, plain, &mut sealed, &mut scratch);
    if report.answer.is_ok() {
        printer::text(out, b"   whole ")?;
        printer::hex(out, &sealed)?;
        print_work(out, report.work)?;
    }
    Ok(())
}

// By rule 15.2, the head's work is 2 for L and the CMAC of the zero block, and 2, 1 and 1 for strings of
// 18, 6 and 6 bytes: 6. A record's from the head is 1 for its number, and for 40 bytes of plaintext 3 and,
// as key stream, 3 again: 7. The whole call's is both: 13.
fn main(rt: HostRuntime) -> io::Result<()> {
    let plain = b"descent 1204: 14.2 m, brake at 61 C, ok.";
    let made = Head::make(KEY, PLACE, &LENS[..3]);
    printer::text(&rt, b"the head")?;
    print_work(&rt, made.work)?;
    for number in [b"no. 0001", b"no. 0002", b"no. 0003"] {
        from_head(&rt, made.head, number, plain)?;
        whole(&rt, number, plain)?;
    }
    Ok(())
}
