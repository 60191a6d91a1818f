// What the whole calls, and what they are made of, hand back. What the calls do is in specs/, and its laws in proofs/.
#![tactic(auto)]

ghost use Rattle.std.specs.Prelude.{◌≡◌, true, length};
ghost use Rattle.whole.specs.Calls.{is_key_length};

use answers::Answer;

// A key of 32, 48 or 64 bytes: the first half serves S2V, the second the key stream.
#[derive(Clone, Copy)]
pub struct Key<'a> {
    pub bytes: &'a [u8],
    pub ghost is_key: { is_key_length (length bytes.now) ≡ true },
}

// An answer, and how many blocks went through the cipher for it:
// 0 after a refusal other than Forged, which took as many as success.
// A record, and no Result: `DidCall` promises the work of a refusal too.
#[derive(Clone, Copy)]
pub struct Report {
    pub answer: Answer,
    pub work: usize,
}

// An answer, the slot of the ring whose key opened,
// which is 0 after a refusal, and the work for all keys that were tried.
// A record, and no Result: `DidRing` promises slot and work of a refusal too.
#[derive(Clone, Copy)]
pub struct RingAnswer {
    pub answer: Answer,
    pub slot: usize,
    pub work: usize,
}

// Whether a sealed string is genuine, and the work that it took to tell.
// A record, and no Option: `Decrypts` promises the work of a forged one too.
#[derive(Clone, Copy)]
pub struct Verdict {
    pub genuine: bool,
    pub work: usize,
}

// The first slot of a ring whose key opens, and the work for all keys that were tried.
#[derive(Clone, Copy)]
pub struct Found {
    pub slot: Option<usize>,
    pub work: usize,
}
