// The calls that the C interface leaves out, exported for the host tests alone: whole calls with any header list,
// and each piecewise call on a head or a state given as bytes. A call's work comes through its last buffer.
// C has each name, so what is alike but for the call stays apart, and lengths come beside the slices.
#![tactic(auto)]

mod fields;
mod heads;
mod pieces;
mod records;
mod state;

use answers::Refusal;
use head::{Head, Made};
use stream::{Step, Stream};
use whole::Report;

// What a call answers where a state's buffer has not state::LEN bytes, or a head's not heads::LEN:
// no number of the table of answers.
const NO_BUFFER: u64 = 0xffffffff00000000;

// Hands a call's work back through a buffer of eight bytes, the lowest first; one of another length stays as it is.
fn give_work(blocks: usize, to: &mut [u8]) {
    if to.len() == 8 {
        fields::put_number(to, 0, blocks);
    }
}

// Hands a whole call's work back through its buffer and the answer as one number.
fn give_report(report: Report, work: &mut [u8]) -> u64 {
    give_work(report.work, work);
    kinphlor::pack(report.answer)
}

// Hands state and work back through their buffers and the answer as one number.
fn give(step: Step, bytes: &mut [u8], work: &mut [u8]) -> u64 {
    if bytes.len() != state::LEN {
        return NO_BUFFER;
    }
    state::store(&step.state, bytes);
    give_work(step.work, work);
    kinphlor::pack(step.answer)
}

// Does a call on the state that bytes stand for.
fn on_state<F: FnOnce(Stream) -> Step>(bytes: &mut [u8], work: &mut [u8], call: F) -> u64
    requires { F.IsAlwaysCallable call }
{
    let Some(state) = state::load(bytes) else {
        return NO_BUFFER;
    };
    give(call(state), bytes, work)
}

// Hands head and work back through their buffers and the answer as one number. As `give`, and not one function with
// it: a step and a made head name what they hold differently, and a trait over both would have more lines.
fn give_head(made: Made, bytes: &mut [u8], work: &mut [u8]) -> u64 {
    if bytes.len() != heads::LEN {
        return NO_BUFFER;
    }
    heads::store(&made.head, bytes);
    give_work(made.work, work);
    kinphlor::pack(made.answer)
}

#[unsafe(no_mangle)]
pub extern "C" fn probe_seal(
    key: &[u8],
    header: &[u8],
    lens: &[u32],
    input: &[u8],
    output: &mut [u8],
    scratch: &mut [u8],
    work: &mut [u8],
) -> u64 {
    give_report(siv::seal(key, header, lens, input, output, scratch), work)
}

#[unsafe(no_mangle)]
pub extern "C" fn probe_open(
    key: &[u8],
    header: &[u8],
    lens: &[u32],
    input: &[u8],
    output: &mut [u8],
    scratch: &mut [u8],
    work: &mut [u8],
) -> u64 {
    give_report(siv::open(key, header, lens, input, output, scratch), work)
}

// Hands a slot's number, which is one byte, back through a buffer.
fn give_slot(slot: usize, to: &mut [u8]) {
    if let Some(byte) = to.first_mut() {
        *byte = (slot % 256) as u8;
    }
}

#[unsafe(no_mangle)]
pub extern "C" fn probe_open_ring(
    key_len: usize,
    ring: &[u8],
    header: &[u8],
    lens: &[u32],
    input: &[u8],
    output: &mut [u8],
    scratch: &mut [u8],
    slot: &mut [u8],
    work: &mut [u8],
) -> u64 {
    let opened = ring::open_ring(key_len, ring, header, lens, input, output, scratch);
    give_slot(opened.slot, slot);
    give_work(opened.work, work);
    kinphlor::pack(opened.answer)
}

// What a whole call with header strings of these lengths and n bytes of plaintext will report as its work.
#[unsafe(no_mangle)]
pub extern "C" fn probe_planned_work(lens: &[u32], n: usize) -> u64 {
    admission::planned_work(lens, n) as u64
}

#[unsafe(no_mangle)]
pub extern "C" fn probe_begin_sealer(
    key: &[u8],
    header: &[u8],
    lens: &[u32],
    bytes: &mut [u8],
    work: &mut [u8],
) -> u64 {
    give(Stream::begin_sealer(key, header, lens), bytes, work)
}

#[unsafe(no_mangle)]
pub extern "C" fn probe_begin_opener(
    key: &[u8],
    header: &[u8],
    lens: &[u32],
    tag: &[u8],
    bytes: &mut [u8],
    work: &mut [u8],
) -> u64 {
    give(Stream::begin_opener(key, header, lens, tag), bytes, work)
}

#[unsafe(no_mangle)]
pub extern "C" fn probe_make_head(
    key: &[u8],
    header: &[u8],
    lens: &[u32],
    head: &mut [u8],
    work: &mut [u8],
) -> u64 {
    give_head(Head::make(key, header, lens), head, work)
}

#[unsafe(no_mangle)]
pub extern "C" fn probe_extend_head(
    head: &mut [u8],
    header: &[u8],
    lens: &[u32],
    work: &mut [u8],
) -> u64 {
    let Some(first) = heads::load(head) else {
        return NO_BUFFER;
    };
    give_head(first.extend(header, lens), head, work)
}

#[unsafe(no_mangle)]
pub extern "C" fn probe_begin_sealer_from(
    head: &[u8],
    header: &[u8],
    lens: &[u32],
    bytes: &mut [u8],
    work: &mut [u8],
) -> u64 {
    let Some(first) = heads::load(head) else {
        return NO_BUFFER;
    };
    give(Stream::begin_sealer_from(first, header, lens), bytes, work)
}

#[unsafe(no_mangle)]
pub extern "C" fn probe_begin_opener_from(
    head: &[u8],
    header: &[u8],
    lens: &[u32],
    tag: &[u8],
    bytes: &mut [u8],
    work: &mut [u8],
) -> u64 {
    let Some(first) = heads::load(head) else {
        return NO_BUFFER;
    };
    give(
        Stream::begin_opener_from(first, header, lens, tag),
        bytes,
        work,
    )
}

#[unsafe(no_mangle)]
pub extern "C" fn probe_add(bytes: &mut [u8], piece: &[u8], work: &mut [u8]) -> u64 {
    on_state(bytes, work, |state| state.add(piece))
}

#[unsafe(no_mangle)]
pub extern "C" fn probe_turn(bytes: &mut [u8], output: &mut [u8], work: &mut [u8]) -> u64 {
    on_state(bytes, work, |state| state.turn(output))
}

#[unsafe(no_mangle)]
pub extern "C" fn probe_write(
    bytes: &mut [u8],
    piece: &[u8],
    output: &mut [u8],
    work: &mut [u8],
) -> u64 {
    on_state(bytes, work, |state| state.write(piece, output))
}

#[unsafe(no_mangle)]
pub extern "C" fn probe_close(bytes: &mut [u8], work: &mut [u8]) -> u64 {
    on_state(bytes, work, |state| state.close())
}

#[unsafe(no_mangle)]
pub extern "C" fn probe_feed(
    bytes: &mut [u8],
    piece: &[u8],
    output: &mut [u8],
    work: &mut [u8],
) -> u64 {
    on_state(bytes, work, |state| state.feed(piece, output))
}

#[unsafe(no_mangle)]
pub extern "C" fn probe_finish(bytes: &mut [u8], output: &mut [u8], work: &mut [u8]) -> u64 {
    on_state(bytes, work, |state| state.finish(output))
}

// Seals input by pieces of at most n bytes, n at least 1: the tag and then the ciphertext to the front of output.
// The state never leaves this call, so that it can be timed.
#[unsafe(no_mangle)]
pub extern "C" fn probe_seal_pieces(
    key: &[u8],
    header: &[u8],
    lens: &[u32],
    input: &[u8],
    n: usize,
    output: &mut [u8],
) -> u64 {
    kinphlor::pack(pieces::seal(Stream::begin_sealer(key, header, lens), input, n, output))
}

// Opens a sealed string by pieces of at most n bytes, n at least 1: the plaintext to the front of output.
#[unsafe(no_mangle)]
pub extern "C" fn probe_open_pieces(
    key: &[u8],
    header: &[u8],
    lens: &[u32],
    input: &[u8],
    n: usize,
    output: &mut [u8],
) -> u64 {
    if input.len() < Stream::TAG_LEN {
        return kinphlor::pack(Err(Refusal::SealedLength));
    }
    let (tag, text) = input.split_at(Stream::TAG_LEN);
    let begun = Stream::begin_opener(key, header, lens, tag);
    kinphlor::pack(pieces::open(begun, text, n, output))
}

// Seals input as records of n bytes, all begun from one head: each record's tag and ciphertext behind the last's in
// output. The head never leaves this call, so that it can be timed.
#[unsafe(no_mangle)]
pub extern "C" fn probe_seal_records(
    key: &[u8],
    header: &[u8],
    lens: &[u32],
    input: &[u8],
    n: usize,
    output: &mut [u8],
) -> u64 {
    kinphlor::pack(records::seal(Head::make(key, header, lens), input, n, output))
}

// Opens sealed strings of records of n bytes, all begun from one head:
// each record's plaintext behind the last's in output.
#[unsafe(no_mangle)]
pub extern "C" fn probe_open_records(
    key: &[u8],
    header: &[u8],
    lens: &[u32],
    input: &[u8],
    n: usize,
    output: &mut [u8],
) -> u64 {
    kinphlor::pack(records::open(Head::make(key, header, lens), input, n, output))
}
