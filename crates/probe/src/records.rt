// Records of one length, each sealed or opened from one head.
ghost use Rattle.std.specs.Prelude.{◌≡◌, ◌≤◌, OnOk};

use crate::pieces;
use answers::{Answer, Judgement, Refusal};
use head::{Head, Made};
use stream::Stream;

// Seals a record to the front of output: its tag, and behind that its ciphertext.
fn seal_one(head: Head, record: &[u8], output: &mut [u8]) -> Answer {
    let begun = Stream::begin_sealer_from(head, &[], &[]);
    pieces::seal(begun, record, Stream::LIMIT, output)
}

// Opens a sealed string to the front of output.
fn open_one(head: Head, record: &[u8], output: &mut [u8]) -> Answer {
    if record.len() < Stream::TAG_LEN {
        return Err(Refusal::SealedLength);
    }
    let (tag, text) = record.split_at(Stream::TAG_LEN);
    let begun = Stream::begin_opener_from(head, &[], &[], tag);
    pieces::open(begun, text, Stream::LIMIT, output)
}

// Seals or opens, by `each`, records of `from` bytes to `to` bytes each, where input is whole records and output has
// room for as many: the first refusal, or else the last answer.
fn one_by_one<F: Fn(Head, &[u8], &mut [u8]) -> Answer>(
    made: Made,
    each: F,
    input: &[u8],
    from: usize,
    output: &mut [u8],
    to: usize,
) -> Answer
    requires callable { F.IsAlwaysCallable each }
    requires records { (1 ≤ from) × (1 ≤ to) }
{
    if input.len() % from != 0 {
        return Err(Refusal::State);
    }
    if output.len() / to < input.len() / from {
        return Err(Refusal::OutputShort);
    }
    let mut answer = made.answer;
    for (record, place) in input.chunks(from).zip(output.chunks_mut(to)) {
        answer = answer.and(each(made.head, record, place));
    }
    answer
}

// The refusal of records with n bytes of plaintext.
fn judge_size(n: usize) -> Judgement
    ensures { OnOk result ((1 ≤ n) × (n ≤ 1048576)) }
{
    if n == 0 || Stream::LIMIT < n {
        return Err(Refusal::State);
    }
    Ok(())
}

// Seals records with n bytes of plaintext each.
pub(crate) fn seal(made: Made, input: &[u8], n: usize, output: &mut [u8]) -> Answer {
    judge_size(n)?;
    one_by_one(made, seal_one, input, n, output, n + Stream::TAG_LEN)
}

// Opens the sealed strings of such records.
pub(crate) fn open(made: Made, input: &[u8], n: usize, output: &mut [u8]) -> Answer {
    judge_size(n)?;
    one_by_one(made, open_one, input, n + Stream::TAG_LEN, output, n)
}
