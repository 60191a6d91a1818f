// Which states a call takes.
ghost use Rattle.std.specs.Prelude.{◌≡◌, not, ◌&&◌, eqb, ltb};
ghost use Rattle.s2v.specs.S2v.{tail_length};
ghost use Rattle.stream.specs.State.{stage_number, written_limit, stream_place, kept_fits, fits};

use crate::{Stage, Stream};

// The most that written may be in a stage.
fn written_limit(stage: Stage, total: usize) -> usize
    ensures { result ≡ written_limit (stage_number stage) total }
{
    match stage {
        Stage::Writing => total,
        Stage::Adding | Stage::Feeding => 0,
    }
}

// Whether a number is the tail's length at a total.
fn is_tail_len(n: usize, total: usize) -> bool
    ensures { result ≡ eqb n (tail_length total) }
{
    n == s2v::tail_len(total)
}

// How many bytes of the key stream a state in a stage has used.
fn stream_place(stage: Stage, s: &Stream) -> usize
    ensures { result ≡ stream_place (stage_number stage) s.now }
{
    match stage {
        Stage::Writing => s.written,
        Stage::Feeding => s.total,
        Stage::Adding => 0,
    }
}

// Whether the kept block is zero where whole blocks of the key stream are used.
#[tactic(auto, unfolding(crate::specs::State::kept_fits))]
fn kept_fits(stage: Stage, s: &Stream) -> bool
    ensures { result ≡ kept_fits (stage_number stage) s.now }
{
    stream_place(stage, s) % 16 != 0 || octets::zero_from(&s.kept, 0)
}

// Whether a state is one for a call that wants a stage.
#[tactic(auto, unfolding(crate::specs::State::fits))]
pub(crate) fn fits(wanted: Stage, s: &Stream) -> bool
    ensures { result ≡ fits (stage_number wanted) s.now }
{
    s.stage == wanted as u8
        && aes::is_width(s.width)
        && s.total <= Stream::LIMIT
        && s.written <= written_limit(wanted, s.total)
        && is_tail_len(s.tail_len, s.total)
        && kept_fits(wanted, s)
        && octets::zero_from(&s.tail, s.tail_len)
}

// Whether close is due: a state that is writing, and has written all that was added.
pub(crate) fn closes(s: &Stream) -> bool
    ensures { result ≡ (fits 2 s.now && not (ltb s.now.written s.now.total)) }
{
    fits(Stage::Writing, s) && s.total <= s.written
}
