// Which refusal of a piecewise call is due, from numbers and from whether the state fits the call.
#![tactic(auto)]

ghost use Rattle.std.specs.Prelude.{◌≡◌, not, [], ◌∷◌, ◌+◌, ltb};
ghost use Rattle.answers.specs.Answer.{row, Judges};

use answers::{Judgement, Refusal};

// Whether n bytes behind those that were used are more than the most.
fn exceeds(most: usize, used: usize, n: usize) -> bool
    ensures { result ≡ ltb most (used + n) }
{
    most < used || most - used < n
}

// The refusals of a call that takes a piece of n bytes. Whether the state fits is a flag, here and below, as in the
// clauses: what judges a state stands above this crate.
pub fn piece(fits: bool, most: usize, used: usize, n: usize) -> Judgement
    ensures { Judges (row 9 (not fits) ∷ row 4 (ltb most (used + n)) ∷ []) result }
{
    if !fits {
        return Err(Refusal::State);
    }
    if exceeds(most, used, n) {
        return Err(Refusal::TooLong);
    }
    Ok(())
}

// The refusals of a call that writes so many bytes to an output.
pub fn room(fits: bool, need: usize, output: usize) -> Judgement
    ensures { Judges (row 9 (not fits) ∷ row 6 (ltb output need) ∷ []) result }
{
    if !fits {
        return Err(Refusal::State);
    }
    if output < need {
        return Err(Refusal::OutputShort);
    }
    Ok(())
}

// The refusals of a call that takes a piece of n bytes and writes as many at place at of an output.
pub fn piece_to(
    fits: bool,
    most: usize,
    used: usize,
    n: usize,
    at: usize,
    output: usize,
) -> Judgement
    ensures { Judges (row 9 (not fits) ∷ row 4 (ltb most (used + n)) ∷ row 6 (ltb output (at + n)) ∷ []) result }
{
    piece(fits, most, used, n)?;
    if exceeds(output, at, n) {
        return Err(Refusal::OutputShort);
    }
    Ok(())
}
