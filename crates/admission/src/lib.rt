// What lengths alone tell: which refusal is due, and the work.
#![tactic(auto)]

ghost use Rattle.std.specs.Prelude.{◌≡◌, ◌++◌, ◌<◌};
ghost use Rattle.answers.specs.Answer.{Judges};
ghost use Rattle.whole.specs.Calls.{is_key_length, scratch_need, header_rows, seal_rows, open_rows, opening_rows};
ghost use Rattle.whole.specs.Ring.{is_ring, ring_rows};
ghost use Rattle.whole.specs.Work.{planned_work};

use answers::{Judgement, Refusal};

// The longest plaintext.
pub const LIMIT: usize = 1048576;

// The length of a tag.
pub const TAG_LEN: usize = 16;

// The least scratch.
const SCRATCH_MIN: usize = 16;

// The most keys of a ring.
const RING_MAX: usize = 4;

// The scratch that a plaintext of n bytes needs.
pub fn scratch_need(n: usize) -> usize
    ensures { result ≡ scratch_need n }
{
    n.max(SCRATCH_MIN)
}

// Whether a key may have n bytes.
#[tactic(auto, unfolding(whole::specs::Calls::is_key_length))]
pub fn is_key_len(n: usize) -> bool
    ensures { result ≡ is_key_length n }
{
    matches!(n, 32 | 48 | 64)
}

// The refusals of key and header list. Here and below lengths come one by one, as the rows in the clauses take them.
pub fn judge_header(key_len: usize, lens: &[u32], header_len: usize) -> Judgement
    ensures { Judges (header_rows key_len lens.now header_len) result }
{
    if !is_key_len(key_len) {
        return Err(Refusal::KeyLength);
    }
    if header::too_many(lens.len()) {
        return Err(Refusal::HeaderCount);
    }
    if !header::sums_to(lens, header_len) {
        return Err(Refusal::HeaderLengths);
    }
    Ok(())
}

// The refusals of a plaintext's length and of the buffers lent to seal it.
fn judge_plaintext(n: usize, output: usize, scratch: usize) -> Judgement
    ensures { Judges (seal_rows n output scratch) result }
{
    if LIMIT < n {
        return Err(Refusal::TooLong);
    }
    if output < n + TAG_LEN {
        return Err(Refusal::OutputShort);
    }
    if scratch < scratch_need(n) {
        return Err(Refusal::ScratchShort);
    }
    Ok(())
}

// The refusals of sealing.
pub fn judge_seal(
    key_len: usize,
    lens: &[u32],
    header_len: usize,
    n: usize,
    output: usize,
    scratch: usize,
) -> Judgement
    ensures { Judges (header_rows key_len lens.now header_len ++ seal_rows n output scratch) result }
{
    judge_header(key_len, lens, header_len)?;
    judge_plaintext(n, output, scratch)
}

// The refusals of a sealed string's length and of the buffers lent to open it.
fn judge_sealed(y: usize, output: usize, scratch: usize) -> Judgement
    ensures { Judges (open_rows y output scratch) result }
{
    if y < TAG_LEN {
        return Err(Refusal::SealedLength);
    }
    if LIMIT + TAG_LEN < y {
        return Err(Refusal::TooLong);
    }
    if output < y - TAG_LEN {
        return Err(Refusal::OutputShort);
    }
    if scratch < scratch_need(y - TAG_LEN) {
        return Err(Refusal::ScratchShort);
    }
    Ok(())
}

// The refusals of opening but for a forged string. Not one with sealing's: they end in judges with other rows.
pub fn judge_open(
    key_len: usize,
    lens: &[u32],
    header_len: usize,
    y: usize,
    output: usize,
    scratch: usize,
) -> Judgement
    ensures { Judges (opening_rows key_len lens.now header_len y output scratch) result }
{
    judge_header(key_len, lens, header_len)?;
    judge_sealed(y, output, scratch)
}

// Whether ring_len bytes are one to four whole keys.
#[tactic(auto, using(whole::proofs::Ring::ring_test))]
fn is_ring(key_len: usize, ring_len: usize) -> bool
    requires { 0 < key_len }
    ensures { result ≡ is_ring key_len ring_len }
{
    ring_len % key_len == 0 && key_len <= ring_len && ring_len / key_len <= RING_MAX
}

// The refusals of the stated key length and the ring.
#[tactic(auto, unfolding(whole::specs::Calls::is_key_length))]
pub fn judge_ring(key_len: usize, ring_len: usize) -> Judgement
    ensures { Judges (ring_rows key_len ring_len) result }
{
    if !is_key_len(key_len) {
        return Err(Refusal::KeyLength);
    }
    if !is_ring(key_len, ring_len) {
        return Err(Refusal::RingLength);
    }
    Ok(())
}

// The refusals of opening under a ring but for a forged string.
pub fn judge_open_ring(
    key_len: usize,
    ring_len: usize,
    lens: &[u32],
    header_len: usize,
    y: usize,
    output: usize,
    scratch: usize,
) -> Judgement
    ensures { Judges (ring_rows key_len ring_len ++ opening_rows key_len lens.now header_len y output scratch) result }
{
    judge_ring(key_len, ring_len)?;
    judge_open(key_len, lens, header_len, y, output, scratch)
}

// What whole sealing of n bytes under header strings of these lengths, or opening of that, will report as its work.
// It is 0 for more than 126 strings and for n over the limit.
// No Option: the clause gives that 0, and C's call hands it on. n is a plaintext's length, and no count of lens.
#[tactic(auto, unfolding(whole::specs::Work::planned_work))]
pub fn planned_work(lens: &[u32], n: usize) -> usize
    ensures { result ≡ planned_work lens.now n }
{
    if header::too_many(lens.len()) || LIMIT < n {
        return 0;
    }
    2 + header::blocks::of_all(lens) + header::blocks::of(n) + n.div_ceil(16)
}
