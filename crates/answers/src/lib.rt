// The table of answers: success, or one of its refusals, each with its number.
#![tactic(auto)]

ghost use Rattle.std.specs.Prelude.{◌≡◌};
ghost use Rattle.answers.specs.Answer.{number_of};

// Why a call is refused, in the order of the numbers.
#[derive(Clone, Copy, Debug, PartialEq, Eq)]
pub enum Refusal {
    // The key has not 32, 48 or 64 bytes.
    KeyLength = 1,
    // More than 126 header strings.
    HeaderCount = 2,
    // The lengths do not sum to the header bytes.
    HeaderLengths = 3,
    // The plaintext, or the sealed string, is too long.
    TooLong = 4,
    // The sealed string is shorter than a tag, or a tag has not 16 bytes.
    SealedLength = 5,
    // The output is too short.
    OutputShort = 6,
    // The scratch is too short.
    ScratchShort = 7,
    // The recomputed tag is not the given one.
    Forged = 8,
    // The stream state, or the head, is not one for this call.
    State = 9,
    // The nonce is empty.
    EmptyNonce = 10,
    // The ring is not one to four whole keys.
    RingLength = 11,
    // The figures for a header list are out of bounds: how many strings, how many bytes, or the least length.
    HeaderPlan = 12,
}

// Success with a count of bytes, or a refusal.
pub type Answer = Result<usize, Refusal>;

// What a judgement says: nothing stands against the call, or this does.
pub type Judgement = Result<(), Refusal>;

// A refusal's number.
impl From<Refusal> for u64 {
    ghost from_gives = { λ r n. n ≡ number_of r };

    fn from(r: Refusal) -> u64 {
        r as u64
    }
}
