// At most `N` bytes in fixed memory.
ghost use Rattle.std.specs.Prelude.{◌≡◌, ◌-◌, ◌≤◌, drop, replicate};

// Equal bytes are held in one way, since the buffer is 0 past them.
#[derive(Clone, Copy, Debug, PartialEq, Eq)]
pub struct Held<const N: usize> {
    pub(crate) bytes: [u8; N],
    len: usize,
    ghost short: { len ≤ N },
    ghost zeros: { drop len bytes ≡ replicate (N - len) 0 },
}

impl<const N: usize> Held<N> {
    ghost use Rattle.std.specs.Prelude.{◌≡◌, ◌-◌, ◌≤◌, [], ◌∷◌, take, drop, replicate, IsTrue, ◌↔◌};
    ghost use Rattle.marks_lines.specs.Held.{Appends, text};

    pub(crate) fn new() -> Self
        ensures { text result ≡ [] }
    {
        Held {
            bytes: [0; N],
            len: 0,
        }
    }

    // The first `len` bytes of a buffer that is 0 past them.
    pub(crate) fn from_buffer(bytes: [u8; N], len: usize) -> Self
        requires short { len ≤ N }
        requires zeros { drop len bytes ≡ replicate (N - len) 0 }
        ensures { text result ≡ take len bytes.entry }
    {
        Held { bytes, len }
    }

    // What there is no room for is left out. Not by `extend`, which is slow for one byte.
    pub(crate) fn push(&mut self, byte: u8)
        ensures { Appends self.old (byte ∷ []) self.new }
    {
        if self.len < N {
            self.bytes[self.len] = byte;
            self.len += 1;
        }
    }

    pub(crate) fn extend(&mut self, bytes: &[u8])
        ensures { Appends self.old bytes.now self.new }
    {
        let n = bytes.len().min(N - self.len);
        let buffer = &mut self.bytes[..];
        buffer[self.len..self.len + n].copy_from_slice(&bytes[..n]);
        self.len += n;
    }

    pub(crate) fn is_empty(&self) -> bool
        ensures { IsTrue result ↔ (text self.now ≡ []) }
    {
        self.len == 0
    }

    pub fn as_slice(&self) -> &[u8]
        ensures { result.now ≡ text self.now }
    {
        &self.bytes[..self.len]
    }
}
