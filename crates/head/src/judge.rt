// Which refusal is due, from a head and from lengths.
ghost use Rattle.std.specs.Prelude.{◌≡◌};
ghost use Rattle.answers.specs.Answer.{Judges};
ghost use Rattle.head.specs.Head.{fits_head, rest_rows};

use crate::Head;
use answers::{Judgement, Refusal};

// Whether a head is one that a state can begin from.
#[tactic(auto, unfolding(crate::specs::Head::fits_head))]
fn fits(head: Head) -> bool
    ensures { result ≡ fits_head head }
{
    aes::is_width(head.width) && !header::too_many(head.count)
}

// The refusals of a head and the strings that follow its own.
#[tactic(auto, using(crate::proofs::Laws::few_strings))]
pub fn judge_rest(head: Head, lens: &[u32], rest_len: usize) -> Judgement
    ensures { Judges (rest_rows head lens.now rest_len) result }
{
    if !fits(head) {
        return Err(Refusal::State);
    }
    if header::MOST < head.count + lens.len() {
        return Err(Refusal::HeaderCount);
    }
    if !header::sums_to(lens, rest_len) {
        return Err(Refusal::HeaderLengths);
    }
    Ok(())
}
