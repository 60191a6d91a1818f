// Whole sealing and opening, AES-SIV as RFC 5297 has it, by rules 8.1 to 8.5.
#![tactic(auto)]

pub mod admitted;

ghost use Rattle.whole.specs.Calls.{seal_call, open_call, Performs};

use admission::TAG_LEN;
use aes::Engine;
use header::Header;
use whole::{Key, Report};

// Seals input under a key and a header list: the tag, then the ciphertext, to the front of output.
pub fn seal(
    key: &[u8],
    header: &[u8],
    lens: &[u32],
    input: &[u8],
    output: &mut [u8],
    scratch: &mut [u8],
) -> Report
    ensures { Performs seal_call key header lens input output scratch result }
{
    let n = input.len();
    if let Err(refusal) = admission::judge_seal(
        key.len(),
        lens,
        header.len(),
        n,
        output.len(),
        scratch.len(),
    ) {
        return Report {
            answer: Err(refusal),
            work: 0,
        };
    }
    let work = admitted::seal_admitted(
        Key { bytes: key },
        Header {
            bytes: header,
            lens,
        },
        input,
        output,
    );
    octets::zero_at(scratch, 0, admission::scratch_need(n));
    Report {
        answer: Ok(n + TAG_LEN),
        work,
    }
}

// Opens a sealed string under a key and a header list: the plaintext to the front of output, once it is approved.
pub fn open(
    key: &[u8],
    header: &[u8],
    lens: &[u32],
    input: &[u8],
    output: &mut [u8],
    scratch: &mut [u8],
) -> Report
    ensures { Performs open_call key header lens input output scratch result }
{
    let y = input.len();
    if let Err(refusal) = admission::judge_open(
        key.len(),
        lens,
        header.len(),
        y,
        output.len(),
        scratch.len(),
    ) {
        return Report {
            answer: Err(refusal),
            work: 0,
        };
    }
    let engine = Engine::new();
    let verdict = admitted::decrypt_and_verify(
        &engine,
        Key { bytes: key },
        Header {
            bytes: header,
            lens,
        },
        input,
        scratch,
    );
    Report {
        answer: admitted::release_or_wipe(verdict.genuine, y - TAG_LEN, output, scratch),
        work: verdict.work,
    }
}
