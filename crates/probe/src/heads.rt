// A head as bytes, field after field in the struct's order.
ghost use Rattle.std.specs.Prelude.{◌≡◌, length};

use crate::fields;
use head::Head;

// How many bytes a head has: width 8, two times 240, two times 16, count 8.
pub(crate) const LEN: usize = 528;

// The head that bytes stand for, if they are as many as a head has. Inlined, so that it is not copied once more.
#[inline(always)]
pub(crate) fn load(s: &[u8]) -> Option<Head> {
    if s.len() != LEN {
        return None;
    }
    Some(Head {
        width: fields::number_at(s, 0),
        mac_keys: fields::bytes_at(s, 8),
        ctr_keys: fields::bytes_at(s, 248),
        l: fields::bytes_at(s, 488),
        d: fields::bytes_at(s, 504),
        count: fields::number_at(s, 520),
    })
}

// Writes a head's bytes.
pub(crate) fn store(h: &Head, bytes: &mut [u8])
    requires { length bytes.old ≡ 528 }
{
    fields::put_number(bytes, 0, h.width);
    octets::copy_at(bytes, 8, &h.mac_keys);
    octets::copy_at(bytes, 248, &h.ctr_keys);
    octets::copy_at(bytes, 488, &h.l);
    octets::copy_at(bytes, 504, &h.d);
    fields::put_number(bytes, 520, h.count);
}
