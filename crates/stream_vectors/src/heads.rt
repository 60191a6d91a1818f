// RFC 5297's A.2 from heads of its first strings, and heads that are refused.
ghost use Rattle.std.specs.Prelude.{◌≤◌};

use crate::{opened, show, show_answer};
use head::Head;
use rfc5297::{A2_HEADER, A2_KEY, A2_LENS, A2_PLAINTEXT};
use std::io;
use stream::{Step, Stream};

// The first n of A.2's three strings.
#[derive(Clone, Copy)]
struct First {
    n: usize,
    ghost of_three: { n ≤ 3 },
}

impl First {
    // Where they end.
    fn end(self) -> usize
        ensures { result ≤ 66 }
    {
        match self.n {
            0 => 0,
            1 => 40,
            2 => 50,
            _ => 66,
        }
    }

    // A head of A.2's key and them.
    fn head(self) -> Head {
        Head::make(&A2_KEY, &A2_HEADER[..self.end()], &A2_LENS[..self.n]).head
    }

    // A sealer's state from it, with the other strings.
    fn sealer(self) -> Stream {
        let rest = &A2_HEADER[self.end()..];
        begin(self.head(), rest, &A2_LENS[self.n..]).state
    }

    // An opener's, with a tag.
    fn opener(self, tag: &[u8]) -> Stream {
        let rest = &A2_HEADER[self.end()..];
        Stream::begin_opener_from(self.head(), rest, &A2_LENS[self.n..], tag).state
    }

    // A.2 sealed from it.
    fn seal(self, sealed: &mut [u8; 63]) {
        let added = self.sealer().add(&A2_PLAINTEXT).state;
        let turned = added.turn(sealed).state;
        turned.write(&A2_PLAINTEXT, &mut sealed[16..]);
    }

    // Whether a string opens from it to A.2's plaintext.
    fn opens(self, sealed: &[u8; 63]) -> bool {
        let mut plain = [0u8; 47];
        let fed = self.opener(&sealed[..16]).feed(&sealed[16..], &mut plain);
        opened(fed.state, &mut plain)
    }

    // Prints A.2 sealed from it, and whether it opens from there.
    fn show(self, out: &impl Print) -> io::Result<()> {
        let mut sealed = [0u8; 63];
        self.seal(&mut sealed);
        printer::line(out, b" ", &sealed)?;
        if self.opens(&sealed) {
            printer::text(out, b"  opened\n")?;
        }
        Ok(())
    }
}

// A sealer's begin.
fn begin(head: Head, rest: &[u8], lens: &[u32]) -> Step {
    Stream::begin_sealer_from(head, rest, lens)
}

// Arguments that make and extend refuse.
fn refused_heads(out: &impl Print) -> io::Result<()> {
    let empty = [0u32; 127];
    let short = Head::make(&A2_KEY[0..31], &A2_HEADER, &A2_LENS);
    show_answer(out, b"  key of 31 bytes", short.answer)?;
    let many = Head::make(&A2_KEY, &[], &empty);
    show_answer(out, b"  127 strings", many.answer)?;
    let fewer = Head::make(&A2_KEY, &A2_HEADER, &A2_LENS[0..2]);
    show_answer(
        out,
        b"  lengths that do not sum to the header",
        fewer.answer,
    )?;
    let more = First { n: 1 }.head().extend(&[], &empty[0..126]);
    show_answer(out, b"  126 strings behind one", more.answer)
}

// Heads that no call gives: the two things that 9 judges, and one that is used as it is.
fn spoiled_heads(out: &impl Print) -> io::Result<()> {
    let h = First { n: 3 }.head();
    show(
        out,
        b"  key width 20",
        begin(Head { width: 20, ..h }, &[], &[]),
    )?;
    let over = Head { count: 127, ..h };
    show(out, b"  127 strings in the head", begin(over, &[], &[]))?;
    let other = Head {
        d: [0xffu8; 16],
        ..h
    };
    show(
        out,
        b"  another D, which is used as it is",
        begin(other, &[], &[]),
    )
}

// Strings behind a head up to the bound and past it, and a rest and a tag that begin refuses.
fn rests(out: &impl Print) -> io::Result<()> {
    let empty = [0u32; 126];
    let tag = [0u8; 15];
    show(
        out,
        b"  126 strings behind one",
        begin(First { n: 1 }.head(), &[], &empty),
    )?;
    show(
        out,
        b"  125 strings behind one",
        begin(First { n: 1 }.head(), &[], &empty[0..125]),
    )?;
    show(
        out,
        b"  lengths that do not sum to the rest",
        begin(First { n: 1 }.head(), &tag, &[10]),
    )?;
    show(
        out,
        b"  tag of 15 bytes",
        Stream::begin_opener_from(First { n: 3 }.head(), &[], &[], &tag),
    )
}

// Prints A.2 from heads, and what is refused.
pub(crate) fn run(out: &impl Print) -> io::Result<()> {
    printer::text(out, b"A.2 from heads of 0 to 3 strings\n")?;
    for n in 0..4 {
        First { n }.show(out)?;
    }
    printer::text(out, b"refused heads\n")?;
    refused_heads(out)?;
    printer::text(out, b"spoiled heads\n")?;
    spoiled_heads(out)?;
    printer::text(out, b"begins from a head\n")?;
    rests(out)
}
