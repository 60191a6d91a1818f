// The state and the rounds of the cipher.
ghost use Rattle.std.specs.Prelude.{◌≡◌, ◌≤◌};
ghost use Rattle.aes.specs.Cipher.{sub_bytes, shift_rows, mix_columns, add_round_key, round_key};
ghost use Rattle.aes.specs.State.{bytes_of, StateIs};

use crate::{Engine, ExpandedKey, State, word};
use octets::Block;

impl State {
    // The state of a block.
    pub(crate) fn of(b: Block) -> State
        ensures { StateIs b result }
    {
        State {
            c0: u32::from_le_bytes([b[0], b[1], b[2], b[3]]),
            c1: u32::from_le_bytes([b[4], b[5], b[6], b[7]]),
            c2: u32::from_le_bytes([b[8], b[9], b[10], b[11]]),
            c3: u32::from_le_bytes([b[12], b[13], b[14], b[15]]),
        }
    }

    // The block of a state.
    #[tactic(auto, unfolding(octets::specs::Octets::put))]
    pub(crate) fn block(self) -> Block
        ensures { result ≡ bytes_of self }
    {
        let mut block = [0u8; 16];
        block[..4].copy_from_slice(&self.c0.to_le_bytes());
        block[4..8].copy_from_slice(&self.c1.to_le_bytes());
        block[8..12].copy_from_slice(&self.c2.to_le_bytes());
        block[12..].copy_from_slice(&self.c3.to_le_bytes());
        block
    }

    // SubBytes, then ShiftRows.
    fn sub_shift(self, engine: &Engine) -> State
        ensures { StateIs (shift_rows (sub_bytes (bytes_of self))) result }
    {
        State {
            c0: engine.sub_column(self.c0, self.c1, self.c2, self.c3),
            c1: engine.sub_column(self.c1, self.c2, self.c3, self.c0),
            c2: engine.sub_column(self.c2, self.c3, self.c0, self.c1),
            c3: engine.sub_column(self.c3, self.c0, self.c1, self.c2),
        }
    }

    // MixColumns.
    fn mix(self) -> State
        ensures { StateIs (mix_columns (bytes_of self)) result }
    {
        State {
            c0: word::mix_column(self.c0),
            c1: word::mix_column(self.c1),
            c2: word::mix_column(self.c2),
            c3: word::mix_column(self.c3),
        }
    }

    // AddRoundKey.
    pub(crate) fn add(self, key: State) -> State
        ensures { bytes_of result ≡ add_round_key (bytes_of key) (bytes_of self) }
    {
        State {
            c0: self.c0 ^ key.c0,
            c1: self.c1 ^ key.c1,
            c2: self.c2 ^ key.c2,
            c3: self.c3 ^ key.c3,
        }
    }

    // A round.
    pub(crate) fn round(self, engine: &Engine, key: State) -> State
        ensures { bytes_of result ≡ add_round_key (bytes_of key) (mix_columns (shift_rows (sub_bytes (bytes_of self)))) }
    {
        self.sub_shift(engine).mix().add(key)
    }

    // The last round, which has no MixColumns.
    pub(crate) fn last_round(self, engine: &Engine, key: State) -> State
        ensures { bytes_of result ≡ add_round_key (bytes_of key) (shift_rows (sub_bytes (bytes_of self))) }
    {
        self.sub_shift(engine).add(key)
    }
}

impl ExpandedKey<'_> {
    // The round key of round n.
    pub(crate) fn round_key(self, n: usize) -> State
        requires { n ≤ 14 }
        ensures { bytes_of result ≡ round_key self.entry.round_keys.now n }
    {
        // A field's reference is lent again from a local: the proof did not close without.
        let keys = self.round_keys;
        State::of(octets::load(keys, 16 * n))
    }
}
