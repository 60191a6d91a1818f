// The worst header list: how many blocks a record's header strings can have at the most, and lengths that have them.
#![tactic(auto)]

ghost use Rattle.std.specs.Prelude.{◌≡◌, ◌∷◌, ◌++◌, ◌+◌, ◌-◌, ◌≤◌, replicate};
ghost use Rattle.answers.specs.Answer.{outcome_of};
ghost use Rattle.worst_header.specs.WorstHeader.{is_plan, GivesWorst};

use answers::{Answer, Refusal};

// The most header bytes.
pub const MOST_BYTES: usize = 1048576;

// An answer, a list of lengths, those past its count zero, and how many blocks its strings have.
// After a refusal all lengths and the blocks are zero.
// A record, and no Result: `GivesWorst` promises these zeros.
#[derive(Clone, Copy)]
pub struct HeaderList {
    pub answer: Answer,
    pub lens: [u32; 126],
    pub blocks: usize,
}

// Whether a list is planned for these figures. Count and least are judged first, so that their product is small.
#[tactic(auto, unfolding(crate::specs::WorstHeader::is_plan))]
fn is_plan(header_len: usize, count: usize, least: usize) -> bool
    ensures { result ≡ is_plan header_len count least }
{
    1 <= count
        && !header::too_many(count)
        && least <= 1
        && header_len <= MOST_BYTES
        && count * least <= header_len
}

// A list of count lengths in 126 places: the first, and one for all others.
fn list_of(first: u32, count: usize, others: u32) -> [u32; 126]
    requires { (1 ≤ count) × (count ≤ 126) }
    ensures { result ≡ (first ∷ replicate (count - 1) others) ++ replicate (126 - count) 0 }
{
    let mut lens = [0u32; 126];
    lens[..count].fill(others);
    lens[0] = first;
    lens
}

// Of all lists of count lengths that sum to header_len, none under the least, one with the most blocks.
// Every string has a block, and each further one takes 16 bytes beyond a string's first;
// so one string takes all that the others can leave.
pub fn header_list(header_len: usize, count: usize, least: usize) -> HeaderList
    ensures { GivesWorst header_len count least (outcome_of result.answer 0) result.lens result.blocks }
{
    if !is_plan(header_len, count, least) {
        return HeaderList {
            answer: Err(Refusal::HeaderPlan),
            lens: [0u32; 126],
            blocks: 0,
        };
    }
    let others = least;
    let first = header_len - (count - 1) * others;
    let lens = list_of(first as u32, count, others as u32);
    HeaderList {
        answer: Ok(0),
        lens,
        blocks: header::blocks::of_all(&lens[0..count]),
    }
}
