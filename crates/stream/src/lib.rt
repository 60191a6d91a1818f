// Piecewise sealing and opening: a call takes a stream state by value and returns the next with its answer.
#![tactic(auto)]

mod admitted;
mod begin;
mod judge;

ghost use Rattle.std.specs.Prelude.{◌≡◌, List, [], ℕ};
ghost use Rattle.answers.specs.Answer.{number_of};
ghost use Rattle.stream.specs.State.{ended, state_with};
ghost use Rattle.stream.specs.Steps.{DidStep, refused_step, begin_sealer, begin_opener, begin_sealer_from, begin_opener_from};
ghost use Rattle.stream.specs.Steps.{add_step, turn_step, write_step, close_step, feed_step, finish_step};

use admitted::Admitted;
use aes::RoundKeys;
use answers::{Answer, Refusal};
use head::Head;
use octets::Block;
use tail::Absorbed;

// The bytes that wait for the plaintext's end, and zeros behind them.
pub type Tail = tail::Tail;

// The stage that a call wants, or that a begin gives.
#[derive(Clone, Copy)]
pub(crate) enum Stage {
    Adding = 1,
    Writing = 2,
    Feeding = 3,
}

// A stream state, of a sealer or an opener.
#[derive(Clone, Copy, Default)]
pub struct Stream {
    // 0 ended, 1 adding, 2 writing, 3 feeding. It stays a number and no Stage:
    // a state that is given may hold any, and the theorems speak of every one.
    pub stage: u8,
    // The length of one half of the key.
    pub width: usize,
    // The round keys of the key's first half, which serves S2V.
    pub mac_keys: RoundKeys,
    // The round keys of its second half, which serves the counter.
    pub ctr_keys: RoundKeys,
    // L, the cipher of the zero block.
    pub l: Block,
    // D over the header strings.
    pub d: Block,
    // The CMAC chain over the plaintext before its tail.
    pub chain: Block,
    // V, the tag: zero in stage 1.
    pub v: Block,
    // The block of the key stream that is begun and not used up,
    // rule 15.8: where 16 does not divide written in stage 2, or total in stage 3; else zero.
    pub kept: Block,
    // How many bytes were added or fed.
    pub total: usize,
    // How many bytes were written: zero in stages 1 and 3.
    pub written: usize,
    // How many bytes of the tail are used, rule 9.10:
    // total itself below 16, else 16 + total mod 16.
    pub tail_len: usize,
    // The plaintext's tail.
    pub tail: Tail,
}

// What a call hands back; its work in blocks is 0 after a refusal other than Forged.
#[derive(Clone, Copy)]
pub struct Step {
    pub answer: Answer,
    pub state: Stream,
    pub work: usize,
}

// The ended state: all fields zero.
pub(crate) fn ended() -> Stream
    ensures { result ≡ ended }
{
    Stream::default()
}

// A refusal, with a state and no work; the output, if one is lent, is as it came.
pub(crate) fn refused(refusal: Refusal, state: Stream) -> Step
    ensures { (output : List ℕ) → DidStep (refused_step (number_of refusal) state output) result output }
{
    Step {
        answer: Err(refusal),
        state,
        work: 0,
    }
}

impl Stream {
    // The length of a tag.
    pub const TAG_LEN: usize = admission::TAG_LEN;
    // The longest plaintext.
    pub const LIMIT: usize = admission::LIMIT;

    // A sealer's state from a key and a header list.
    pub fn begin_sealer(key: &[u8], header: &[u8], lens: &[u32]) -> Step
        ensures { DidStep (begin_sealer key.now header.now lens.now) result [] }
    {
        begin::begin_with(Head::make(key, header, lens), Stage::Adding, [0u8; 16])
    }

    // An opener's state from a key, a header list and a tag.
    pub fn begin_opener(key: &[u8], header: &[u8], lens: &[u32], tag: &[u8]) -> Step
        ensures { DidStep (begin_opener key.now header.now lens.now tag.now) result [] }
    {
        let Ok(v) = Block::try_from(tag) else {
            return begin::refuse_tag(admission::judge_header(key.len(), lens, header.len()));
        };
        begin::begin_with(Head::make(key, header, lens), Stage::Feeding, v)
    }

    // A sealer's state from a head and the strings of the header list that follow its own.
    pub fn begin_sealer_from(head: Head, rest: &[u8], lens: &[u32]) -> Step
        ensures { DidStep (begin_sealer_from head rest.now lens.now) result [] }
    {
        begin::begin_with(head.extend(rest, lens), Stage::Adding, [0u8; 16])
    }

    // An opener's state from a head, the strings that follow its own, and a tag.
    pub fn begin_opener_from(head: Head, rest: &[u8], lens: &[u32], tag: &[u8]) -> Step
        ensures { DidStep (begin_opener_from head rest.now lens.now tag.now) result [] }
    {
        let Ok(v) = Block::try_from(tag) else {
            return begin::refuse_tag(head::judge::judge_rest(head, lens, rest.len()));
        };
        begin::begin_with(head.extend(rest, lens), Stage::Feeding, v)
    }

    // Keeps what a piece leaves. An array goes into a literal or a field by a local, here and below: straight from a
    // field the proof does not close.
    fn keep(&mut self, left: Absorbed)
        ensures { self.new ≡ state_with self.old left.chain.block left.total left.tail_len left.tail }
    {
        let chain = left.chain.block;
        let tail = left.tail;
        self.chain = chain;
        self.total = left.total;
        self.tail_len = left.tail_len;
        self.tail = tail;
    }

    // Adds a piece of plaintext. Inlined, as the calls below are: in a call of its own a state is copied more often.
    #[inline(always)]
    pub fn add(mut self, piece: &[u8]) -> Step
        ensures { DidStep (add_step self piece.now) result [] }
    {
        let fits = judge::fits(Stage::Adding, &self);
        if let Err(refusal) = bounds::piece(fits, Self::LIMIT, self.total, piece.len()) {
            return refused(refusal, self);
        }
        let absorbed = Admitted { state: &self }.absorb(piece);
        self.keep(absorbed);
        Step {
            answer: Ok(0),
            state: self,
            work: absorbed.chain.work,
        }
    }

    // Ends the adding: V goes to the first 16 bytes of output.
    #[inline(always)]
    pub fn turn(mut self, output: &mut [u8]) -> Step
        ensures { DidStep (turn_step self output.old) result output.new }
    {
        let fits = judge::fits(Stage::Adding, &self);
        if let Err(refusal) = bounds::room(fits, Self::TAG_LEN, output.len()) {
            return refused(refusal, self);
        }
        let tag = Admitted { state: &self }.tag();
        let v = tag.block;
        octets::store(output, 0, v);
        self.stage = Stage::Writing as u8;
        self.v = v;
        Step {
            answer: Ok(Self::TAG_LEN),
            state: self,
            work: tag.work,
        }
    }

    // Writes a piece's ciphertext to the front of output.
    #[inline(always)]
    pub fn write(mut self, piece: &[u8], output: &mut [u8]) -> Step
        ensures { DidStep (write_step self piece.now output.old) result output.new }
    {
        let n = piece.len();
        let fits = judge::fits(Stage::Writing, &self);
        if let Err(refusal) = bounds::piece_to(fits, self.total, self.written, n, 0, output.len()) {
            return refused(refusal, self);
        }
        let end = Admitted { state: &self }.stream_at(self.written, piece, output, 0);
        let kept = end.block;
        self.kept = kept;
        self.written += n;
        Step {
            answer: Ok(n),
            state: self,
            work: end.work,
        }
    }

    // Ends a sealer that has written all that was added.
    #[inline(always)]
    pub fn close(self) -> Step
        ensures { DidStep (close_step self) result [] }
    {
        if !judge::closes(&self) {
            return refused(Refusal::State, self);
        }
        Step {
            answer: Ok(0),
            state: ended(),
            work: 0,
        }
    }

    // Feeds a piece of ciphertext: its plaintext, which nobody has approved yet, goes to output at offset total.
    #[inline(always)]
    pub fn feed(mut self, piece: &[u8], output: &mut [u8]) -> Step
        ensures { DidStep (feed_step self piece.now output.old) result output.new }
    {
        let n = piece.len();
        let at = self.total;
        let fits = judge::fits(Stage::Feeding, &self);
        if let Err(refusal) = bounds::piece_to(fits, Self::LIMIT, at, n, at, output.len()) {
            return refused(refusal, self);
        }
        let s = Admitted { state: &self };
        let end = s.stream_at(at, piece, output, at);
        let absorbed = s.absorb(&output[at..at + n]);
        let kept = end.block;
        self.kept = kept;
        self.keep(absorbed);
        Step {
            answer: Ok(n),
            state: self,
            work: end.work + absorbed.chain.work,
        }
    }

    // Gives the verdict on all that was fed: the plaintext in output is approved, or it is wiped.
    #[inline(always)]
    pub fn finish(self, output: &mut [u8]) -> Step
        ensures { DidStep (finish_step self output.old) result output.new }
    {
        let total = self.total;
        let fits = judge::fits(Stage::Feeding, &self);
        if let Err(refusal) = bounds::room(fits, total, output.len()) {
            return refused(refusal, self);
        }
        let tag = Admitted { state: &self }.tag();
        if octets::same_block(tag.block, self.v) {
            return Step {
                answer: Ok(total),
                state: ended(),
                work: tag.work,
            };
        }
        octets::zero_at(output, 0, total);
        Step {
            answer: Err(Refusal::Forged),
            state: ended(),
            work: tag.work,
        }
    }
}
