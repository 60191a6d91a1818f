// AES as FIPS 197 has it, forward only: keys of 16, 24 and 32 bytes.
#![tactic(auto)]

mod round;
mod schedule;
mod word;

ghost use Rattle.std.specs.Prelude.{◌≡◌, ◌≤◌, true, length};
ghost use Rattle.aes.specs.Aes.{is_width, Expands};
ghost use Rattle.aes.specs.KeyExpansion.{round_keys};
ghost use Rattle.field.specs.Field.{IsSbox};

use octets::Block;
use schedule::Schedule;

// What the cipher is lent besides round keys: made once in an outermost call, and lent from there.
#[derive(Clone, Copy)]
pub struct Engine {
    pub sbox: field::Sbox,
    pub ghost ready: { IsSbox sbox },
}

impl Engine {
    // An engine: the S-box is laid out anew.
    pub fn new() -> Engine {
        let sbox = field::sbox();
        Engine { sbox }
    }
}

// The round keys of all rounds, in memory of a fixed size: 15 of 16 bytes, of which a shorter key has fewer.
pub type RoundKeys = [u8; 240];

// A block, and with how many cipher calls it was made.
#[derive(Clone, Copy)]
pub struct Counted {
    pub block: Block,
    pub work: usize,
}

// The state, a word for each column. A step takes the columns in its own way, so a shared map is no plainer.
#[derive(Clone, Copy)]
struct State {
    c0: u32,
    c1: u32,
    c2: u32,
    c3: u32,
}

// Why a key is not expanded, with its number.
#[derive(Clone, Copy, Debug, PartialEq, Eq)]
pub enum KeyRefusal {
    // The key's length is not 16, 24 or 32.
    Length = 1,
}

// What the key expansion answers, and the round keys: zeros where the key is refused.
#[derive(Clone, Copy)]
pub struct Expansion {
    pub answer: Result<(), KeyRefusal>,
    pub keys: RoundKeys,
}

// Round keys, and the key width whose rounds they are for.
#[derive(Clone, Copy)]
pub struct ExpandedKey<'a> {
    pub width: usize,
    pub round_keys: &'a RoundKeys,
    pub ghost has_rounds: { width ≤ 32 },
}

// The cipher under an expanded key.
#[derive(Clone, Copy)]
pub struct Cipher<'e, 'k> {
    pub engine: &'e Engine,
    pub key: ExpandedKey<'k>,
}

impl Cipher<'_, '_> {
    ghost use Rattle.aes.specs.Keyed.{enciphers};
    ghost use Rattle.aes.specs.Work.{Reports};

    // The cipher of a block, with its one block of work.
    pub fn encrypt(self, block: Block) -> Counted
        ensures { Reports (enciphers self.entry block) 1 result }
    {
        let last = self.key.width / 4 + 6;
        let mut s = State::of(block).add(self.key.round_key(0));
        for n in 1..last {
            s = s.round(self.engine, self.key.round_key(n));
        }
        let block = s.last_round(self.engine, self.key.round_key(last)).block();
        Counted { block, work: 1 }
    }
}

// Whether a key may have n bytes.
#[tactic(auto, unfolding(crate::specs::Aes::is_width))]
pub fn is_width(n: usize) -> bool
    ensures { result ≡ is_width n }
{
    n == 16 || n == 24 || n == 32
}

// The round keys of a key, those past its own rounds zero; a key of another length is refused.
#[tactic(auto, using(crate::proofs::Widths::width))]
pub fn expand(engine: &Engine, key: &[u8]) -> Expansion
    ensures { Expands key.now result }
{
    let n = key.len();
    if is_width(n) {
        let keys = Schedule { engine, nk: n / 4 }.of(key);
        return Expansion {
            answer: Ok(()),
            keys,
        };
    }
    Expansion {
        answer: Err(KeyRefusal::Length),
        keys: [0u8; 240],
    }
}

// The round keys of a key of 16, 24 or 32 bytes.
#[tactic(auto, using(crate::proofs::Widths::width))]
pub fn round_keys(engine: &Engine, key: &[u8]) -> RoundKeys
    requires { is_width (length key.now) ≡ true }
    ensures { result ≡ round_keys key.now }
{
    let nk = key.len() / 4;
    Schedule { engine, nk }.of(key)
}
