// A stream state as bytes, field after field in the struct's order.
ghost use Rattle.std.specs.Prelude.{◌≡◌, length};

use crate::fields;
use stream::Stream;

// How many bytes a state has: stage 1, width 8, two times 240, five times 16, total, written and the tail's length
// 8 each, tail 31.
pub(crate) const LEN: usize = 624;

// The state that bytes stand for, if they are as many as a state has. Inlined, so that it is not copied once more.
#[inline(always)]
pub(crate) fn load(s: &[u8]) -> Option<Stream> {
    if s.len() != LEN {
        return None;
    }
    Some(Stream {
        stage: s[0],
        width: fields::number_at(s, 1),
        mac_keys: fields::bytes_at(s, 9),
        ctr_keys: fields::bytes_at(s, 249),
        l: fields::bytes_at(s, 489),
        d: fields::bytes_at(s, 505),
        chain: fields::bytes_at(s, 521),
        v: fields::bytes_at(s, 537),
        kept: fields::bytes_at(s, 553),
        total: fields::number_at(s, 569),
        written: fields::number_at(s, 577),
        tail_len: fields::number_at(s, 585),
        tail: fields::bytes_at(s, 593),
    })
}

// Writes a state's bytes.
pub(crate) fn store(s: &Stream, bytes: &mut [u8])
    requires { length bytes.old ≡ 624 }
{
    bytes[0] = s.stage;
    fields::put_number(bytes, 1, s.width);
    octets::copy_at(bytes, 9, &s.mac_keys);
    octets::copy_at(bytes, 249, &s.ctr_keys);
    octets::copy_at(bytes, 489, &s.l);
    octets::copy_at(bytes, 505, &s.d);
    octets::copy_at(bytes, 521, &s.chain);
    octets::copy_at(bytes, 537, &s.v);
    octets::copy_at(bytes, 553, &s.kept);
    fields::put_number(bytes, 569, s.total);
    fields::put_number(bytes, 577, s.written);
    fields::put_number(bytes, 585, s.tail_len);
    octets::copy_at(bytes, 593, &s.tail);
}
