// Whole opening under a ring of keys.
#![tactic(auto)]

ghost use Rattle.header.specs.List.{strings_of};
ghost use Rattle.whole.specs.Ring.{PerformsRing, slot_key, HasSlot, HasSlots, TriesSlots};
ghost use Rattle.whole.specs.Siv.{Decrypts, Openable};

use admission::TAG_LEN;
use aes::Engine;
use header::Header;
use whole::{Found, Key, RingAnswer, Verdict};

// A ring of keys of one length, and what is to be opened under one of them.
#[derive(Clone, Copy)]
struct Attempt<'a, 'h> {
    key_len: usize,
    ring: &'a [u8],
    header: Header<'h>,
    sealed: &'a [u8],
}

impl Attempt<'_, '_> {
    // Opens under the key of one slot.
    fn try_slot(self, engine: &Engine, slot: usize, scratch: &mut [u8]) -> Verdict
        requires { HasSlot self.key_len self.ring.now slot × Openable self.sealed.now scratch.old }
        ensures { let a = self.entry in Decrypts (slot_key a.key_len a.ring.now slot) (strings_of a.header) a.sealed.now scratch result }
    {
        let at = slot * self.key_len;
        let key = Key {
            bytes: &self.ring[at..at + self.key_len],
        };
        siv::admitted::decrypt_and_verify(engine, key, self.header, self.sealed, scratch)
    }

    // Tries the slots from slot 0 on, up to the first whose key opens.
    // With a key that opens, its plaintext is at the front of scratch.
    fn try_slots(self, slots: usize, scratch: &mut [u8]) -> Found
        requires { HasSlots self.key_len self.ring.now slots × Openable self.sealed.now scratch.old }
        ensures { let a = self.entry in TriesSlots a.key_len slots a.ring.now (strings_of a.header) a.sealed.now scratch result }
    {
        let engine = Engine::new();
        let mut i = 0;
        let mut work = 0;
        // No `for`: rule 2.9 wants a loop over the slots that yields by `break`.
        let slot = loop {
            if i == slots {
                break None;
            }
            let verdict = self.try_slot(&engine, i, scratch);
            work += verdict.work;
            if verdict.genuine {
                break Some(i);
            }
            i += 1;
        };
        Found { slot, work }
    }
}

// Opens a sealed string under the first key of a ring that opens it.
// The ring is one to four keys of key_len bytes, tried from slot 0.
pub fn open_ring(
    key_len: usize,
    ring: &[u8],
    header: &[u8],
    lens: &[u32],
    input: &[u8],
    output: &mut [u8],
    scratch: &mut [u8],
) -> RingAnswer
    ensures { PerformsRing key_len ring header lens input output scratch result }
{
    let y = input.len();
    if let Err(refusal) = admission::judge_open_ring(
        key_len,
        ring.len(),
        lens,
        header.len(),
        y,
        output.len(),
        scratch.len(),
    ) {
        return RingAnswer {
            answer: Err(refusal),
            slot: 0,
            work: 0,
        };
    }
    let slots = ring.len() / key_len;
    let attempt = Attempt {
        key_len,
        ring,
        header: Header {
            bytes: header,
            lens,
        },
        sealed: input,
    };
    let found = attempt.try_slots(slots, scratch);
    RingAnswer {
        answer: siv::admitted::release_or_wipe(found.slot.is_some(), y - TAG_LEN, output, scratch),
        slot: found.slot.unwrap_or(0),
        work: found.work,
    }
}
