// The begins' common end: the state that a head starts, or a refusal with the ended state.
ghost use Rattle.std.specs.Prelude.{◌≡◌, []};
ghost use Rattle.answers.specs.Answer.{judged, settle, outcome_of};
ghost use Rattle.stream.specs.State.{stage_number, ended, start};
ghost use Rattle.stream.specs.Steps.{DidStep, refused_step, begin_by};

use crate::{Stage, Step, Stream, ended, refused};
use answers::{Judgement, Refusal};
use head::{Head, Made};
use octets::Block;

// The state that a head starts, in a stage and with a tag.
fn start(head: Head, stage: Stage, v: Block) -> Stream
    ensures { result ≡ start head (stage_number stage) v }
{
    let Head {
        width,
        mac_keys,
        ctr_keys,
        l,
        d,
        ..
    } = head;
    Stream {
        stage: stage as u8,
        width,
        mac_keys,
        ctr_keys,
        l,
        d,
        chain: [0u8; 16],
        v,
        kept: [0u8; 16],
        total: 0,
        written: 0,
        tail_len: 0,
        tail: [0u8; 31],
    }
}

// Begins with the head that was made, or hands its refusal on with the ended state.
pub(crate) fn begin_with(made: Made, stage: Stage, v: Block) -> Step
    ensures { DidStep (begin_by (outcome_of made.answer 0).number made.work made.head (stage_number stage) v) result [] }
{
    if let Err(refusal) = made.answer {
        return refused(refusal, ended());
    }
    Step {
        answer: Ok(0),
        state: start(made.head, stage, v),
        work: made.work,
    }
}

// Refuses a tag of another length than 16: with 5, or with the refusal that is due before it.
pub(crate) fn refuse_tag(before: Judgement) -> Step
    ensures { DidStep (refused_step (settle (judged before) 5 (λ n. n)) ended []) result [] }
{
    match before {
        Err(refusal) => refused(refusal, ended()),
        Ok(()) => refused(Refusal::SealedLength, ended()),
    }
}
