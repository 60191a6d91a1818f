// The key expansion, by words.
ghost use Rattle.std.specs.Prelude.{◌≡◌, ◌+◌, ◌*◌, ◌≤◌, ◌<◌, length};
ghost use Rattle.octets.specs.Octets.{put};
ghost use Rattle.field.specs.Field.{power};
ghost use Rattle.aes.specs.KeyExpansion.{word, Powers, temp, next_word, round_keys};
ghost use Rattle.aes.specs.State.{bytes_of_word};

use crate::{Engine, RoundKeys};

// Table 5: the first bytes of the round constants, from constant 1 on.
const ROUND_CONSTANTS: [u8; 10] = [0x01, 0x02, 0x04, 0x08, 0x10, 0x20, 0x40, 0x80, 0x1b, 0x36];

fn round_constants() -> [u8; 10]
    ensures { Powers result }
{
    ROUND_CONSTANTS
}

// The first byte of round constant n + 1.
fn round_constant(n: usize) -> u8
    requires { n < 10 }
    ensures { result ≡ power 2 n }
{
    round_constants()[n]
}

// Word i of a key schedule.
fn word_at(keys: &RoundKeys, i: usize) -> u32
    requires { i < 60 }
    ensures { bytes_of_word result ≡ word keys.now i }
{
    let at = 4 * i;
    u32::from_le_bytes([keys[at], keys[at + 1], keys[at + 2], keys[at + 3]])
}

// What makes a key schedule: the engine, and Nk, the key's length in words.
#[derive(Clone, Copy)]
pub(crate) struct Schedule<'a> {
    pub(crate) engine: &'a Engine,
    pub(crate) nk: usize,
    ghost key_words: { (4 ≤ nk) × (nk ≤ 8) },
}

impl Schedule<'_> {
    // What word i of a key schedule adds to the word Nk before it.
    #[tactic(auto, unfolding(crate::specs::KeyExpansion::temp))]
    fn temp(self, i: usize, before: u32) -> u32
        requires { (self.nk ≤ i) × (i < 4 * self.nk + 28) }
        ensures { bytes_of_word result ≡ temp self.entry.nk i (bytes_of_word before) }
    {
        let phase = i % self.nk;
        if phase == 0 {
            let w = before.rotate_right(8);
            return self.engine.sub_column(w, w, w, w) ^ round_constant(i / self.nk - 1) as u32;
        }
        if 6 < self.nk && phase == 4 {
            return self.engine.sub_column(before, before, before, before);
        }
        before
    }

    // Word i of a key schedule, from the words before it.
    #[tactic(auto, using(crate::proofs::KeyWords::added), unfolding(crate::specs::KeyExpansion::next_word))]
    fn next_word(self, keys: &RoundKeys, i: usize) -> u32
        requires { (self.nk ≤ i) × (i < 4 * self.nk + 28) }
        ensures { bytes_of_word result ≡ next_word self.entry.nk i keys.now }
    {
        word_at(keys, i - self.nk) ^ self.temp(i, word_at(keys, i - 1))
    }

    // Writes word i of a key schedule.
    fn extend(self, keys: &mut RoundKeys, i: usize)
        requires { (self.nk ≤ i) × (i < 4 * self.nk + 28) }
        ensures { keys.new ≡ put keys.old (4 * i) (next_word self.entry.nk i keys.old) }
    {
        let w = self.next_word(keys, i);
        octets::copy_at(keys, 4 * i, &w.to_le_bytes());
    }

    // The key schedule of a key of Nk words.
    pub(crate) fn of(self, key: &[u8]) -> RoundKeys
        requires { length key.now ≡ 4 * self.nk }
        ensures { result ≡ round_keys key.now }
    {
        let mut keys = [0u8; 240];
        octets::copy_at(&mut keys, 0, key);
        for i in self.nk..4 * self.nk + 28 {
            self.extend(&mut keys, i);
        }
        keys
    }
}
