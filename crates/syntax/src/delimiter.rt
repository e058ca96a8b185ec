// A delimiter.
ghost use Rattle.std.specs.Prelude.{◌≡◌, ◌≤◌, length, take, IsUtf8};
ghost use Rattle.utf8.specs.Utf8.{prefix};

// At most 16 bytes, which are UTF-8.
// The buffer has a length beside it: settings use no heap, and an array of the library's `ArrayString` was tried, whose copy the checker does not cover.
#[derive(Clone, Copy, Debug)]
pub struct Delimiter {
    pub(crate) bytes: [u8; 16],
    pub(crate) len: usize,
    ghost fits: { len ≤ 16 },
    ghost text: { prefix (take len bytes) ≡ len },
}

impl Delimiter {
    ghost use Rattle.syntax.specs.Delims.{bytes_of};

    // A delimiter of this text.
    pub(crate) fn new(text: &str) -> Delimiter
        requires { length text.now ≤ 16 }
        ensures { bytes_of result ≡ text.now }
    {
        let mut delimiter = Delimiter {
            bytes: [0; 16],
            len: 0,
        };
        delimiter.rewrite(text.as_bytes());
        delimiter
    }

    // The bytes of the delimiter.
    pub fn as_bytes(&self) -> &[u8]
        ensures value { result.now ≡ bytes_of self.now }
        ensures fits { length result.now ≤ 16 }
        ensures text { IsUtf8 result.now }
    {
        &self.bytes[..self.len]
    }

    // Puts these bytes in place of the delimiter's.
    pub(crate) fn rewrite(&mut self, bytes: &[u8])
        requires fits { length bytes.now ≤ 16 }
        requires text { IsUtf8 bytes.now }
        ensures { bytes_of self.new ≡ bytes.now }
    {
        let len = bytes.len();
        self.bytes[0..len].copy_from_slice(bytes);
        self.len = len;
    }
}
