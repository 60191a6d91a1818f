// A reader of the header buffer: it holds the lent bytes and a place, and hands out each string as a part of them.
ghost use Rattle.std.specs.Prelude.{◌≡◌, ◌+◌, ◌≤◌, length};
ghost use Rattle.octets.specs.Octets.{part};

// The lent bytes and a place in them.
#[derive(Clone, Copy)]
pub struct Reader<'a> {
    pub bytes: &'a [u8],
    pub at: usize,
}

impl<'a> Reader<'a> {
    // A reader of the bytes, at a place.
    pub fn new(bytes: &'a [u8], at: usize) -> Reader<'a>
        ensures { (result.bytes ≡ bytes.entry) × (result.at ≡ at) }
    {
        Reader { bytes, at }
    }

    // The string of n bytes at the reader's place.
    pub fn next(self, n: usize) -> &'a [u8]
        requires { self.at + n ≤ length self.bytes.now }
        ensures { result.now ≡ part self.entry.bytes.now self.entry.at n }
    {
        string_at(self.bytes, self.at, n)
    }

    // The reader n bytes further.
    pub fn moved(self, n: usize) -> Reader<'a>
        requires { self.at + n ≤ length self.bytes.now }
        ensures { (result.bytes ≡ self.entry.bytes) × (result.at ≡ self.entry.at + n) }
    {
        Reader {
            at: self.at + n,
            ..self
        }
    }
}

// The string of n bytes at a place of the buffer.
pub fn string_at(bytes: &[u8], at: usize, n: usize) -> &[u8]
    requires { at + n ≤ length bytes.now }
    ensures { result.now ≡ part bytes.now at n }
{
    &bytes[at..at + n]
}
