// A prepared head: a key and the first strings of a header list, worked through once;
// any number of stream states begin from it.
#![tactic(auto)]

mod admitted;
pub mod judge;

ghost use Rattle.answers.specs.Answer.{outcome_of};
ghost use Rattle.head.specs.Head.{zero_head, DidMake, make_head, extend_head};

use aes::RoundKeys;
use answers::{Answer, Refusal};
use header::Header;
use octets::Block;
use whole::Key;

// A head. Whatever its fields hold, a call that takes one judges width and count, and uses the others as they are.
#[derive(Clone, Copy, Default)]
pub struct Head {
    // The length of one half of the key.
    pub width: usize,
    // The round keys of the key's first half, which serves S2V.
    pub mac_keys: RoundKeys,
    // The round keys of its second half, which serves the counter.
    pub ctr_keys: RoundKeys,
    // L, the cipher of the zero block.
    pub l: Block,
    // D over the head's strings.
    pub d: Block,
    // How many strings these are.
    pub count: usize,
}

// What making a head hands back; its work is 0 after a refusal, and what begins from the head leaves it out.
#[derive(Clone, Copy)]
pub struct Made {
    pub answer: Answer,
    pub work: usize,
    pub head: Head,
}

// A refusal, with a head that is all zero and no work.
fn refused(refusal: Refusal) -> Made
    ensures { DidMake (record { outcome = outcome_of (Err refusal) 0; head = zero_head }) result }
{
    Made {
        answer: Err(refusal),
        work: 0,
        head: Head::default(),
    }
}

impl Head {
    // A head from a key and the first strings of a header list. A refusal comes with a head that is all zero.
    pub fn make(key: &[u8], header: &[u8], lens: &[u32]) -> Made
        ensures { DidMake (make_head key.now header.now lens.now) result }
    {
        if let Err(refusal) = admission::judge_header(key.len(), lens, header.len()) {
            return refused(refusal);
        }
        admitted::head_of(
            Key { bytes: key },
            Header {
                bytes: header,
                lens,
            },
        )
    }

    // The head with the next strings of its header list. A refusal comes with a head that is all zero.
    pub fn extend(self, rest: &[u8], lens: &[u32]) -> Made
        ensures { DidMake (extend_head self rest.now lens.now) result }
    {
        if let Err(refusal) = judge::judge_rest(self, lens, rest.len()) {
            return refused(refusal);
        }
        admitted::extended(self, rest, lens)
    }
}
