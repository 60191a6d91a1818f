// A whole string sealed or opened by pieces of one length. Lengths are judged first: after a begin that succeeded no
// call is refused but finish, with 8, and after one that was refused each is, with 9, so that the last answer tells.
use answers::{Answer, Refusal};
use stream::{Step, Stream};

// Seals input after a sealer's begin.
pub(crate) fn seal(begun: Step, input: &[u8], n: usize, output: &mut [u8]) -> Answer {
    if n == 0 {
        return Err(Refusal::State);
    }
    if Stream::LIMIT < input.len() {
        return Err(Refusal::TooLong);
    }
    if output.len() < Stream::TAG_LEN || output.len() - Stream::TAG_LEN < input.len() {
        return Err(Refusal::OutputShort);
    }
    let mut adding = begun.state;
    for piece in input.chunks(n) {
        adding = adding.add(piece).state;
    }
    let mut writing = adding.turn(output).state;
    let places = output[Stream::TAG_LEN..].chunks_mut(n);
    for (piece, place) in input.chunks(n).zip(places) {
        writing = writing.write(piece, place).state;
    }
    writing.close().answer
}

// Opens a ciphertext after an opener's begin.
pub(crate) fn open(begun: Step, text: &[u8], n: usize, output: &mut [u8]) -> Answer {
    if n == 0 {
        return Err(Refusal::State);
    }
    if Stream::LIMIT < text.len() {
        return Err(Refusal::TooLong);
    }
    if output.len() < text.len() {
        return Err(Refusal::OutputShort);
    }
    let mut feeding = begun.state;
    for piece in text.chunks(n) {
        feeding = feeding.feed(piece, output).state;
    }
    feeding.finish(output).answer
}
