// What is done once a call is admitted.
ghost use Rattle.std.specs.Prelude.{◌+◌, ◌≤◌, length};
ghost use Rattle.octets.specs.Octets.{Writes};
ghost use Rattle.aes.specs.Work.{Reports};
ghost use Rattle.keystream.specs.Pieces.{piece_work};
ghost use Rattle.whole.specs.Calls.{limit};
ghost use Rattle.stream.specs.State.{Fit, Absorbs, tag_of_state, tag_of_state_work, streamed_at, kept_at};

use crate::Stream;
use aes::{Cipher, Counted, Engine, ExpandedKey};
use cmac::{Mac, Subkeys};
use tail::Absorbed;

// A state that a call takes, after it was judged.
#[derive(Clone, Copy)]
pub(crate) struct Admitted<'a> {
    pub(crate) state: &'a Stream,
    pub(crate) ghost fit: { Fit state.now },
}

impl Admitted<'_> {
    // What a piece of plaintext makes of the fields of a state that it changes.
    pub(crate) fn absorb(self, piece: &[u8]) -> Absorbed
        requires { self.state.now.total + length piece.now ≤ limit }
        ensures { Absorbs self.entry.state.now piece.now result }
    {
        let s = self.state;
        let key = ExpandedKey {
            width: s.width,
            round_keys: &s.mac_keys,
        };
        tail::absorb(key, s.chain, s.total, s.tail, s.tail_len, piece)
    }

    // V of all that was added.
    #[tactic(auto, using(s2v::proofs::Laws::tail_lt))]
    pub(crate) fn tag(self) -> Counted
        ensures { Reports (tag_of_state self.entry.state.now) (tag_of_state_work self.entry.state.now) result }
    {
        let s = self.state;
        let engine = Engine::new();
        let cipher = Cipher {
            engine: &engine,
            key: ExpandedKey {
                width: s.width,
                round_keys: &s.mac_keys,
            },
        };
        let mac = Mac {
            cipher,
            subkeys: Subkeys::of(s.l),
        };
        s2v::tag_from(mac, s.d, s.chain, &s.tail[..s.tail_len])
    }

    // Writes a piece, xored with the state's key stream from a place of it on, at place at of a slice.
    // Gives the block that is kept then, and the work. Slice and place are two: the clause speaks of all that is lent.
    #[tactic(auto, unfolding(crate::specs::State::streamed_at, crate::specs::State::kept_at))]
    pub(crate) fn stream_at(self, place: usize, piece: &[u8], dst: &mut [u8], at: usize) -> Counted
        requires { (place + length piece.now ≤ limit) × (at + length piece.now ≤ length dst.old) }
        ensures kept { Reports (kept_at self.entry.state.now place (length piece.now)) (piece_work place (length piece.now)) result }
        ensures text { Writes dst at (streamed_at self.entry.state.now place piece.now) }
    {
        let s = self.state;
        let key = ExpandedKey {
            width: s.width,
            round_keys: &s.ctr_keys,
        };
        kept::xor_piece(key, s.v, s.kept, place, piece, dst, at)
    }
}
