// The counter as RFC 5297 has it: Q from V, and Q + i.
#![tactic(auto)]

ghost use Rattle.std.specs.Prelude.{◌≡◌};
ghost use Rattle.counter.specs.Counter.{initial_counter, counter_block};

use octets::Block;

// Q from V: the top bits of bytes 8 and 12 cleared.
pub fn initial_counter(v: Block) -> Block
    ensures { result ≡ initial_counter v }
{
    let mut q = v;
    q[8] &= 0x7f;
    q[12] &= 0x7f;
    q
}

// Q + i modulo 2^128.
#[tactic(auto, using(crate::proofs::Numbers::sum_block))]
pub fn counter_block(q: Block, i: u64) -> Block
    ensures { result ≡ counter_block q i }
{
    let first = u128::from_be_bytes(q);
    first.wrapping_add(u128::from(i)).to_be_bytes()
}
