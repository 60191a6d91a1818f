// What is done once a key, or a head, and header strings are admitted.
ghost use Rattle.std.specs.Prelude.{◌+◌, ◌≤◌, length};
ghost use Rattle.header.specs.Header.{total, strings_in};
ghost use Rattle.header.specs.List.{strings_of};
ghost use Rattle.head.specs.Head.{head_of, head_of_work, extended, extended_work, DidMake, made_head};

use crate::{Head, Made};
use aes::{Cipher, Counted, Engine, ExpandedKey};
use cmac::{Mac, Subkeys};
use header::Header;
use whole::Key;

// Makes the head of a key and header strings. An array goes into a literal by a local, here and below: straight from a
// field the proof does not close.
#[tactic(auto, using(whole::proofs::Laws::mac_width, whole::proofs::Laws::ctr_width, whole::proofs::Laws::half_most))]
pub(crate) fn head_of(key: Key, header: Header) -> Made
    ensures { DidMake (made_head (head_of_work (strings_of header.entry)) (head_of key.entry.bytes.now (strings_of header.entry))) result }
{
    let engine = Engine::new();
    let width = key.bytes.len() / 2;
    let mac_keys = aes::round_keys(&engine, &key.bytes[..width]);
    let ctr_keys = aes::round_keys(&engine, &key.bytes[width..]);
    let cipher = Cipher {
        engine: &engine,
        key: ExpandedKey {
            width,
            round_keys: &mac_keys,
        },
    };
    let zero = cmac::zero_cipher(cipher);
    let l = zero.block;
    let mac = Mac {
        cipher,
        subkeys: Subkeys::of(l),
    };
    let all = s2v::make_header_result(mac, header);
    let d = all.block;
    Made {
        answer: Ok(0),
        work: zero.work + all.work,
        head: Head {
            width,
            mac_keys,
            ctr_keys,
            l,
            d,
            count: header.lens.len(),
        },
    }
}

// Extends a head by strings more; where there is none, no table is built.
// Bytes and lengths come apart, and not as a `Header`, since `absorb_strings` takes them so.
pub(crate) fn extended(head: Head, rest: &[u8], lens: &[u32]) -> Made
    requires { (head.width ≤ 32) × (head.count + length lens.now ≤ 126) × (total lens.now ≤ length rest.now) }
    ensures { DidMake (made_head (extended_work (strings_in rest lens)) (extended head (strings_in rest lens))) result }
{
    if lens.is_empty() {
        return Made {
            answer: Ok(0),
            work: 0,
            head,
        };
    }
    let engine = Engine::new();
    let cipher = Cipher {
        engine: &engine,
        key: ExpandedKey {
            width: head.width,
            round_keys: &head.mac_keys,
        },
    };
    let mac = Mac {
        cipher,
        subkeys: Subkeys::of(head.l),
    };
    let before = Counted {
        block: head.d,
        work: 0,
    };
    let all = s2v::absorb_strings(mac, before, rest, lens);
    let d = all.block;
    Made {
        answer: Ok(0),
        work: all.work,
        head: Head {
            d,
            count: head.count + lens.len(),
            ..head
        },
    }
}
