// Lines of bytes.
ghost use Rattle.std.specs.Prelude.{◌≡◌, ◌<◌, length};
ghost use Rattle.unescape.specs.Lines.{line_of, rest_of, bare};

use byte_search::memchr;

// A line without the CR that ends it, if one does.
fn without_cr(line: &[u8]) -> &[u8]
    ensures { result.now ≡ bare line.now }
{
    line.strip_suffix(b"\r").unwrap_or(line)
}

// The first line, without its LF or CR LF, and what follows it.
pub fn next_line(input: &[u8]) -> (&[u8], &[u8])
    ensures line { result.0.now ≡ line_of input.now }
    ensures rest { result.1.now ≡ rest_of input.now }
    ensures shorter { 0 < length input.now → length result.1.now < length input.now }
{
    match memchr(input, b'\n') {
        Some(end) => (without_cr(&input[..end]), &input[end + 1..]),
        None => (input, &[]),
    }
}
