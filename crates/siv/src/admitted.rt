// What is done once a call is admitted.
ghost use Rattle.std.specs.Prelude.{◌≡◌, cond, ℕ, ◌+◌, ◌≤◌, length, take, replicate};
ghost use Rattle.octets.specs.Octets.{Writes};
ghost use Rattle.aes.specs.Keyed.{enciphers};
ghost use Rattle.header.specs.List.{strings_of};
ghost use Rattle.s2v.specs.S2v.{IsS2v};
ghost use Rattle.answers.specs.Answer.{outcome_of, success, forged};
ghost use Rattle.whole.specs.Calls.{scratch_need};
ghost use Rattle.whole.specs.Siv.{IsTag, streamed, streamed_work, sealed, sealed_work, Decrypts, Openable};

use admission::TAG_LEN;
use aes::{Cipher, Counted, Engine, ExpandedKey};
use answers::{Answer, Refusal};
use cmac::{Mac, Subkeys};
use header::Header;
use octets::Block;
use whole::{Key, Verdict};

// S2V under a cipher.
fn tag_under(cipher: Cipher, header: Header, p: &[u8]) -> Counted
    ensures { IsS2v (enciphers cipher.entry) (strings_of header.entry) p.now result }
{
    let zero = cmac::zero_cipher(cipher);
    let mac = Mac {
        cipher,
        subkeys: Subkeys::of(zero.block),
    };
    let head = s2v::make_header_result(mac, header);
    let tag = s2v::tag(mac, head.block, p);
    Counted {
        work: zero.work + head.work + tag.work,
        ..tag
    }
}

// The tag of a header list and a plaintext.
#[tactic(auto, using(whole::proofs::Laws::mac_width, whole::proofs::Laws::half_most))]
fn tag_of(engine: &Engine, key: Key, header: Header, p: &[u8]) -> Counted
    ensures { IsTag key.entry.bytes.now (strings_of header.entry) p.now result }
{
    let width = key.bytes.len() / 2;
    let cipher = Cipher {
        engine,
        key: ExpandedKey {
            width,
            round_keys: &aes::round_keys(engine, &key.bytes[..width]),
        },
    };
    tag_under(cipher, header, p)
}

// Writes src, xored with the key stream of a tag, at a place of a slice; gives the work.
// Slice and place are two: the clause speaks of all that is lent.
#[tactic(auto, using(whole::proofs::Laws::ctr_width, whole::proofs::Laws::half_most))]
fn xor_key_stream(
    engine: &Engine,
    key: Key,
    v: Block,
    src: &[u8],
    dst: &mut [u8],
    at: usize,
) -> usize
    requires { at + length src.now ≤ length dst.old }
    ensures work { result ≡ streamed_work src.now }
    ensures text { Writes dst at (streamed key.entry.bytes.now v src.now) }
{
    let width = key.bytes.len() / 2;
    let cipher = Cipher {
        engine,
        key: ExpandedKey {
            width,
            round_keys: &aes::round_keys(engine, &key.bytes[width..]),
        },
    };
    keystream::xor_from(cipher, v, 0, src, dst, at).work
}

// Seals to the front of output; gives the work.
pub(crate) fn seal_admitted(key: Key, header: Header, input: &[u8], output: &mut [u8]) -> usize
    requires { 16 + length input.now ≤ length output.old }
    ensures work { result ≡ sealed_work key.entry.bytes.now (strings_of header.entry) input.now }
    ensures sealed { Writes output 0 (sealed key.entry.bytes.now (strings_of header.entry) input.now) }
{
    let engine = Engine::new();
    let tag = tag_of(&engine, key, header, input);
    octets::store(output, 0, tag.block);
    tag.work + xor_key_stream(&engine, key, tag.block, input, output, TAG_LEN)
}

// Opens to the front of scratch, and says whether the recomputed tag is the given one.
pub fn decrypt_and_verify(
    engine: &Engine,
    key: Key,
    header: Header,
    sealed: &[u8],
    scratch: &mut [u8],
) -> Verdict
    requires { Openable sealed.now scratch.old }
    ensures { Decrypts key.entry.bytes.now (strings_of header.entry) sealed.now scratch result }
{
    let v = octets::load(sealed, 0);
    let n = sealed.len() - TAG_LEN;
    let work = xor_key_stream(engine, key, v, &sealed[TAG_LEN..], scratch, 0);
    let tag = tag_of(engine, key, header, &scratch[..n]);
    Verdict {
        genuine: octets::same_block(tag.block, v),
        work: work + tag.work,
    }
}

// Ends an opening of n bytes: to the front of output what scratch has of them if it is genuine, or zeros.
// Then zeros over the scratch. A flag says which: the clauses name it.
pub fn release_or_wipe(genuine: bool, n: usize, output: &mut [u8], scratch: &mut [u8]) -> Answer
    requires { (n ≤ length output.old) × (scratch_need n ≤ length scratch.old) }
    ensures outcome { (w : ℕ) → outcome_of result w ≡ cond genuine (success n w) (forged w) }
    ensures output { Writes output 0 (cond genuine (take n scratch.old) (replicate n 0)) }
    ensures scratch { Writes scratch 0 (replicate (scratch_need n) 0) }
{
    let answer = if genuine {
        octets::copy_at(output, 0, &scratch[0..n]);
        Ok(n)
    } else {
        octets::zero_at(output, 0, n);
        Err(Refusal::Forged)
    };
    octets::zero_at(scratch, 0, admission::scratch_need(n));
    answer
}
