// The C interface, which kinphlor_c exports: whole sealing and opening over byte slices, and opening under a ring of keys,
// with associated data and nonce as the header list; their work, planned from lengths; and the worst header list.
#![tactic(auto)]

ghost use Rattle.std.specs.Prelude.{◌≡◌, ◌≤◌};
ghost use Rattle.answers.specs.Answer.{outcome_of};
ghost use Rattle.whole.specs.Calls.{limit};
ghost use Rattle.kinphlor.specs.Interface.{packed, empty_nonce, seal_from_c, open_from_c, PerformsFromC};
ghost use Rattle.kinphlor.specs.Interface.{packed_ring, empty_nonce_ring, PerformsRingFromC, planned_from_c, GivesWorstFromC};

use answers::{Answer, Refusal};
use whole::RingAnswer;

// An answer as one number: its number times 2 to the power 32, plus its length.
pub fn pack(a: Answer) -> u64
    ensures { result ≡ packed (outcome_of a 0) }
{
    match a {
        Ok(n) => n as u64,
        Err(refusal) => u64::from(refusal) * 4294967296,
    }
}

// Whether the nonce is empty, and the key is none to refuse before it.
#[tactic(auto, unfolding(crate::specs::Interface::empty_nonce))]
fn empty_nonce(key_len: usize, nonce_len: u32) -> bool
    ensures { result ≡ empty_nonce key_len nonce_len }
{
    admission::is_key_len(key_len) && nonce_len == 0
}

// Seals: header is the associated data and then the nonce.
pub fn kinphlor_seal(
    key: &[u8],
    header: &[u8],
    ad_len: u32,
    nonce_len: u32,
    input: &[u8],
    output: &mut [u8],
    scratch: &mut [u8],
) -> u64
    ensures { PerformsFromC seal_from_c key header ad_len nonce_len input output scratch result }
{
    if empty_nonce(key.len(), nonce_len) {
        return pack(Err(Refusal::EmptyNonce));
    }
    let lens = [ad_len, nonce_len];
    pack(siv::seal(key, header, &lens, input, output, scratch).answer)
}

// Opens what kinphlor_seal sealed. A function of its own, since C has both.
pub fn kinphlor_open(
    key: &[u8],
    header: &[u8],
    ad_len: u32,
    nonce_len: u32,
    input: &[u8],
    output: &mut [u8],
    scratch: &mut [u8],
) -> u64
    ensures { PerformsFromC open_from_c key header ad_len nonce_len input output scratch result }
{
    if empty_nonce(key.len(), nonce_len) {
        return pack(Err(Refusal::EmptyNonce));
    }
    let lens = [ad_len, nonce_len];
    pack(siv::open(key, header, &lens, input, output, scratch).answer)
}

// A ring's answer as one number: the slot, times 2 to the power 28, stands between number and length.
fn pack_ring(a: RingAnswer) -> u64
    requires { (a.slot ≤ 3) × ((outcome_of a.answer 0).count ≤ limit) }
    ensures { result ≡ packed_ring a.slot (outcome_of a.answer 0) }
{
    pack(a.answer) + (a.slot as u64) * 268435456
}

// Whether the nonce is empty, and neither 1 nor 11 is due before it.
#[tactic(auto, unfolding(crate::specs::Interface::empty_nonce_ring))]
fn empty_nonce_ring(key_len: usize, ring_len: usize, nonce_len: u32) -> bool
    ensures { result ≡ empty_nonce_ring key_len ring_len nonce_len }
{
    admission::judge_ring(key_len, ring_len).is_ok() && nonce_len == 0
}

// Opens what kinphlor_seal sealed, under the first key of a ring that opens it.
pub fn kinphlor_open_ring(
    key_len: usize,
    ring: &[u8],
    header: &[u8],
    ad_len: u32,
    nonce_len: u32,
    input: &[u8],
    output: &mut [u8],
    scratch: &mut [u8],
) -> u64
    ensures { PerformsRingFromC key_len ring header ad_len nonce_len input output scratch result }
{
    if empty_nonce_ring(key_len, ring.len(), nonce_len) {
        return pack(Err(Refusal::EmptyNonce));
    }
    let lens = [ad_len, nonce_len];
    pack_ring(ring::open_ring(key_len, ring, header, &lens, input, output, scratch))
}

// For planning, from lengths alone: how many blocks go through the cipher to seal n bytes, or to open what that gives,
// with associated data and nonce of these lengths. 0 for an empty nonce and for n over the limit.
#[tactic(auto, unfolding(crate::specs::Interface::planned_from_c))]
pub fn kinphlor_planned_work(ad_len: u32, nonce_len: u32, n: usize) -> u64
    ensures { result ≡ planned_from_c ad_len nonce_len n }
{
    if nonce_len == 0 {
        return 0;
    }
    let lens = [ad_len, nonce_len];
    admission::planned_work(&lens, n) as u64
}

// The worst header list, to the lent places: of all lists of count lengths that sum to header_len,
// none under the least, one whose strings have the most blocks.
// The number is the answer's times 2 to the power 32, plus these blocks; after 12 places and blocks are zero.
pub fn kinphlor_worst_header(
    header_len: usize,
    count: usize,
    least: usize,
    lens: &mut [u32; 126],
) -> u64
    ensures { GivesWorstFromC header_len count least lens.new result }
{
    let given = worst_header::header_list(header_len, count, least);
    // By a local: a proof of `*lens = given.lens` does not close.
    let places = given.lens;
    *lens = places;
    pack(given.answer) + given.blocks as u64
}
