// RFC 5297's A.2 sealed and opened by pieces and from heads, against the document and the whole calls;
// then calls in wrong stages, on spoiled states, after the end and past the limit.
#![tactic(auto)]

mod heads;

ghost use Rattle.std.specs.Prelude.{◌≤◌, ◌<◌};

use answers::Answer;
use rfc5297::{A2_HEADER, A2_KEY, A2_LENS, A2_PLAINTEXT};
use std::io;
use stream::{Step, Stream};

// Prints a label and the number of a step's answer.
pub(crate) fn show(out: &impl Print, label: &[u8], step: Step) -> io::Result<()> {
    show_answer(out, label, step.answer)
}

// Prints a label and an answer's number, 0 for success.
pub(crate) fn show_answer(out: &impl Print, label: &[u8], answer: Answer) -> io::Result<()> {
    printer::text(out, label)?;
    println!(out; ": {}", answer.err().map_or(0, u64::from))
}

// A sealer's state for A.2.
fn sealer() -> Stream {
    Stream::begin_sealer(&A2_KEY, &A2_HEADER, &A2_LENS).state
}

// A sealer's state that A.2's plaintext was added to.
fn added() -> Stream {
    sealer().add(&A2_PLAINTEXT).state
}

// An opener's state for A.2 and a tag.
fn opener(tag: &[u8]) -> Stream {
    Stream::begin_opener(&A2_KEY, &A2_HEADER, &A2_LENS, tag).state
}

// How many bytes from the front on are the same. No `==`: the count is printed.
fn count_same(a: &[u8], b: &[u8]) -> usize {
    a.iter().zip(b).take_while(|(x, y)| x == y).count()
}

// Two places at which A.2's 47 bytes are cut.
#[derive(Clone, Copy)]
struct Cuts {
    a: usize,
    b: usize,
    ghost in_order: { (a ≤ b) × (b ≤ 47) },
}

impl Cuts {
    // Adds A.2's plaintext in three pieces.
    fn add(self, s: Stream) -> Stream {
        let p = &A2_PLAINTEXT;
        [&p[..self.a], &p[self.a..self.b], &p[self.b..]]
            .iter()
            .fold(s, |state, piece| state.add(piece).state)
    }

    // Writes a plaintext in three pieces, behind the tag.
    fn write(self, s: Stream, p: &[u8; 47], output: &mut [u8; 63]) {
        let one = s.write(&p[..self.a], &mut output[16..]).state;
        let two = one
            .write(&p[self.a..self.b], &mut output[16 + self.a..])
            .state;
        two.write(&p[self.b..], &mut output[16 + self.b..]);
    }

    // Feeds a sealed string's ciphertext in three pieces.
    fn feed(self, s: Stream, sealed: &[u8; 63], output: &mut [u8]) -> Stream {
        let y = &sealed[16..];
        [&y[..self.a], &y[self.a..self.b], &y[self.b..]]
            .iter()
            .fold(s, |state, piece| state.feed(piece, output).state)
    }

    // A.2 sealed by pieces.
    fn seal(self, sealed: &mut [u8; 63]) {
        let turned = self.add(sealer()).turn(sealed).state;
        self.write(turned, &A2_PLAINTEXT, sealed);
    }

    // Whether A.2 by pieces seals to a string.
    fn seals(self, sealed: &[u8; 63]) -> bool {
        let mut output = [0u8; 63];
        self.seal(&mut output);
        output == *sealed
    }

    // Whether the string by pieces opens to A.2's plaintext.
    fn opens(self, sealed: &[u8; 63]) -> bool {
        let mut plain = [0u8; 47];
        let fed = self.feed(opener(&sealed[..16]), sealed, &mut plain);
        opened(fed, &mut plain)
    }
}

// Whether finish approves of what was fed, and it is A.2's plaintext.
pub(crate) fn opened(fed: Stream, plain: &mut [u8; 47]) -> bool {
    fed.finish(plain).answer.is_ok() && *plain == A2_PLAINTEXT
}

// How many pairs of places agree, from all pairs of A.2's 47 bytes and its two ends.
fn count_cuts(sealed: &[u8; 63]) -> usize {
    let mut count = 0;
    for b in 0..48 {
        count += count_below(sealed, b);
    }
    count
}

// How many places from 0 on, b at most, agree with the second cut at b.
fn count_below(sealed: &[u8; 63], b: usize) -> usize
    requires { b < 48 }
    ensures { result ≤ 48 }
{
    for a in 0..=b {
        let cuts = Cuts { a, b };
        if !cuts.seals(sealed) || !cuts.opens(sealed) {
            return a;
        }
    }
    b + 1
}

// What zeros written in place of A.2's plaintext give: the key stream.
fn key_stream(output: &mut [u8; 63]) {
    let turned = added().turn(output).state;
    Cuts { a: 5, b: 28 }.write(turned, &[0u8; 47], output);
}

// How many bytes from the front on of a ciphertext are the plaintext xored with the key stream.
fn rewritten(sealed: &[u8; 63]) -> usize {
    let mut mixed = [0u8; 63];
    key_stream(&mut mixed);
    let mut text = [0u8; 47];
    octets::xor_at(&mut text, 0, &A2_PLAINTEXT, &mixed[16..]);
    count_same(&text, &sealed[16..])
}

// Calls in stages of a sealer that they do not want.
fn sealer_stages(out: &impl Print) -> io::Result<()> {
    let mut output = [0u8; 63];
    let adding = added();
    show(
        out,
        b"  write before turn",
        adding.write(&A2_PLAINTEXT, &mut output),
    )?;
    show(out, b"  close before turn", adding.close())?;
    show(
        out,
        b"  feed to a sealer",
        adding.feed(&A2_PLAINTEXT, &mut output),
    )?;
    show(out, b"  finish of a sealer", adding.finish(&mut output))?;
    let writing = adding.turn(&mut output).state;
    show(out, b"  add after turn", writing.add(&A2_PLAINTEXT))?;
    show(out, b"  turn again", writing.turn(&mut output))?;
    show(out, b"  close before all is written", writing.close())
}

// The sealer's calls on an opener.
fn opener_stages(out: &impl Print) -> io::Result<()> {
    let mut output = [0u8; 63];
    let feeding = opener(&[0u8; 16]);
    show(out, b"  add to an opener", feeding.add(&A2_PLAINTEXT))?;
    show(out, b"  turn of an opener", feeding.turn(&mut output))?;
    show(
        out,
        b"  write of an opener",
        feeding.write(&A2_PLAINTEXT, &mut output),
    )?;
    show(out, b"  close of an opener", feeding.close())
}

// Calls after a sealer's end.
fn closed(out: &impl Print) -> io::Result<()> {
    let mut output = [0u8; 63];
    let writing = added().turn(&mut output).state;
    let written = writing.write(&A2_PLAINTEXT, &mut output).state;
    show(out, b"  close", written.close())?;
    let closed = written.close().state;
    show(out, b"  add after close", closed.add(&A2_PLAINTEXT))?;
    show(out, b"  close again", closed.close())
}

// Calls after an opener's end.
fn finished(out: &impl Print, sealed: &[u8; 63]) -> io::Result<()> {
    let mut plain = [0u8; 47];
    let fed = opener(&sealed[..16])
        .feed(&sealed[16..62], &mut plain)
        .state;
    show(
        out,
        b"  finish before the last byte",
        fed.finish(&mut plain),
    )?;
    let finished = fed.finish(&mut plain).state;
    show(
        out,
        b"  feed after finish",
        finished.feed(sealed, &mut plain),
    )?;
    show(out, b"  finish again", finished.finish(&mut plain))
}

// States that no begin and no call gives: each of the things that 9 judges.
fn spoiled(out: &impl Print) -> io::Result<()> {
    let p = &A2_PLAINTEXT;
    let mut output = [0u8; 63];
    let s = sealer();
    show(out, b"  stage 4", Stream { stage: 4, ..s }.add(p))?;
    show(out, b"  key width 20", Stream { width: 20, ..s }.add(p))?;
    let over = Stream {
        total: 1048577,
        tail_len: 17,
        ..s
    };
    show(out, b"  total over the limit", over.add(p))?;
    show(
        out,
        b"  written in stage 1",
        Stream { written: 1, ..s }.turn(&mut output),
    )?;
    let turned = added().turn(&mut output).state;
    let over = Stream {
        written: 48,
        ..turned
    };
    show(out, b"  written over total", over.write(p, &mut output))?;
    show(
        out,
        b"  tail length 16 of no bytes",
        Stream { tail_len: 16, ..s }.add(p),
    )?;
    let mut tail = s.tail;
    tail[0] = 1;
    show(out, b"  unused tail byte", Stream { tail, ..s }.add(p))?;
    let other = Stream {
        d: [0xffu8; 16],
        ..s
    };
    show(out, b"  another D, which is used as it is", other.add(p))
}

// A kept block where the key stream is at a block's start, in each stage; and one where it is not.
fn kept_blocks(out: &impl Print) -> io::Result<()> {
    let p = &A2_PLAINTEXT;
    let mut output = [0u8; 63];
    let s = Stream {
        kept: [0xffu8; 16],
        ..added()
    };
    show(out, b"  kept block in stage 1", s.turn(&mut output))?;
    let turned = added().turn(&mut output).state;
    let s = Stream {
        kept: [0xffu8; 16],
        ..turned
    };
    show(
        out,
        b"  kept block of none written",
        s.write(p, &mut output),
    )?;
    let used = Stream { written: 46, ..s };
    show(
        out,
        b"  kept block of 46 written, which is used as it is",
        used.write(&[1], &mut output),
    )?;
    printer::line(out, b"  01 under it", &output[0..1])?;
    let s = Stream {
        kept: [0xffu8; 16],
        ..opener(&[0u8; 16])
    };
    show(out, b"  kept block of none fed", s.feed(p, &mut output))
}

// Pieces past the limit.
fn limits(out: &impl Print) -> io::Result<()> {
    let p = &A2_PLAINTEXT;
    let s = Stream {
        total: 1048529,
        tail_len: 17,
        ..sealer()
    };
    show(out, b"  47 bytes more than 1,048,529", s.add(p))?;
    let s = Stream {
        total: 1048530,
        tail_len: 18,
        ..sealer()
    };
    show(out, b"  47 bytes more than 1,048,530", s.add(p))?;
    let mut output = [0u8; 16];
    let writing = sealer().turn(&mut output).state;
    show(out, b"  write beyond total", writing.write(p, &mut output))
}

// Outputs too short.
fn short_outputs(out: &impl Print) -> io::Result<()> {
    let mut output = [0u8; 15];
    show(out, b"  turn to 15 bytes", sealer().turn(&mut output))?;
    show(
        out,
        b"  feed past the output",
        opener(&[0u8; 16]).feed(&A2_PLAINTEXT, &mut output),
    )
}

// Arguments that begin refuses.
fn refused_begins(out: &impl Print) -> io::Result<()> {
    show(
        out,
        b"  key of 31 bytes",
        Stream::begin_sealer(&A2_KEY[0..31], &A2_HEADER, &A2_LENS),
    )?;
    show(
        out,
        b"  lengths that do not sum to the header",
        Stream::begin_sealer(&A2_KEY, &A2_HEADER, &A2_LENS[0..2]),
    )?;
    show(
        out,
        b"  tag of 15 bytes",
        Stream::begin_opener(&A2_KEY, &A2_HEADER, &A2_LENS, &[0u8; 15]),
    )
}

// A.2 sealed by the whole call.
fn whole(sealed: &mut [u8; 63]) {
    let mut scratch = [0u8; 47];
    siv::seal(
        &A2_KEY,
        &A2_HEADER,
        &A2_LENS,
        &A2_PLAINTEXT,
        sealed,
        &mut scratch,
    );
}

fn main(rt: HostRuntime) -> io::Result<()> {
    let mut sealed = [0u8; 63];
    Cuts { a: 7, b: 30 }.seal(&mut sealed);
    printer::line(&rt, b"A.2 by pieces", &sealed)?;
    whole(&mut sealed);
    printer::text(
        &rt,
        b"pairs of cuts that seal and open as the whole calls: ",
    )?;
    printer::number(&rt, count_cuts(&sealed))?;
    printer::text(
        &rt,
        b"bytes of key stream where another plaintext is written: ",
    )?;
    printer::number(&rt, rewritten(&sealed))?;
    printer::text(&rt, b"wrong stages\n")?;
    sealer_stages(&rt)?;
    opener_stages(&rt)?;
    printer::text(&rt, b"the end\n")?;
    closed(&rt)?;
    finished(&rt, &sealed)?;
    printer::text(&rt, b"spoiled states\n")?;
    spoiled(&rt)?;
    kept_blocks(&rt)?;
    printer::text(&rt, b"limits\n")?;
    limits(&rt)?;
    short_outputs(&rt)?;
    refused_begins(&rt)?;
    heads::run(&rt)
}
