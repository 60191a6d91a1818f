// How many blocks of 16 bytes strings have, from their lengths.
ghost use Rattle.std.specs.Prelude.{◌≡◌, ◌*◌, ◌≤◌, ◌^◌, length};
ghost use Rattle.header.specs.Blocks.{blocks_of, blocks_of_all};

// How many blocks a string of n bytes has.
pub fn of(n: usize) -> usize
    ensures { result ≡ blocks_of n }
{
    n.max(1).div_ceil(16)
}

// The blocks of strings of these lengths.
pub fn of_all(lens: &[u32]) -> usize
    requires { length lens.now ≤ 126 }
    ensures all { result ≡ blocks_of_all lens.now }
    ensures small { result ≤ 126 * 2 ^ 28 }
{
    lens.iter().map(|n| of(*n as usize)).sum()
}
