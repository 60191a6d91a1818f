// A column of the state, or a word of the key schedule, as a number: row 0 in the lowest byte. Rotated by a byte,
// each row takes the byte of the row below it: RotWord.
ghost use Rattle.std.specs.Prelude.{◌/◌, ◌%◌};
ghost use Rattle.field.specs.Field.{mul, sbox};
ghost use Rattle.aes.specs.State.{WordIs, Mixed};

use crate::Engine;

// Each byte times 02 in the field: the low seven bits move up, and where the top bit was set 1b is added.
fn twice(w: u32) -> u32
    ensures { WordIs (mul 2 (w % 0x100)) (mul 2 (w / 0x100 % 0x100)) (mul 2 (w / 0x10000 % 0x100)) (mul 2 (w / 0x1000000 % 0x100)) result }
{
    let top = w & 0x80808080;
    ((w ^ top) * 2) ^ (top / 0x80 * 0x1b)
}

// MixColumns at one column.
pub(crate) fn mix_column(w: u32) -> u32
    ensures { Mixed (w % 0x100) (w / 0x100 % 0x100) (w / 0x10000 % 0x100) (w / 0x1000000 % 0x100) result }
{
    let x = twice(w);
    x ^ (x ^ w).rotate_right(8) ^ w.rotate_right(16) ^ w.rotate_right(24)
}

impl Engine {
    // The S-box at row 0 of a, row 1 of b, row 2 of c and row 3 of d. Of each word it is one byte, so no `to_le_bytes`,
    // which makes four.
    pub(crate) fn sub_column(&self, a: u32, b: u32, c: u32, d: u32) -> u32
        ensures { WordIs (sbox (a % 0x100)) (sbox (b / 0x100 % 0x100)) (sbox (c / 0x10000 % 0x100)) (sbox (d / 0x1000000 % 0x100)) result }
    {
        u32::from_le_bytes([
            self.sbox[(a % 0x100) as usize],
            self.sbox[(b / 0x100 % 0x100) as usize],
            self.sbox[(c / 0x10000 % 0x100) as usize],
            self.sbox[(d / 0x1000000 % 0x100) as usize],
        ])
    }
}
