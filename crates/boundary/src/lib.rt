// The boundary for C and Rust: a slice passes as a pointer and then a length.

#![tactic(auto)]

ghost use Rattle.std.specs.Prelude.{◌≡◌, length};
ghost use Rattle.decode.specs.Decoding.{told, decode, length_told, written, overwritten};
ghost use Rattle.boundary.specs.Numbers.{number, worth};

use decode::{decode_into, decoded_len};
use escape::DecodeFault;

// Tells an answer as C takes it: 0 and the number of bytes, or the refusal's number and its place.
fn tell(answer: Result<usize, DecodeFault>, value: &mut u64) -> u32
    ensures number { result ≡ number (told answer) }
    ensures value { value.new ≡ worth (told answer) }
{
    let (number, worth) = match answer {
        Ok(len) => (0, len),
        Err(fault) => (fault.number(), fault.place()),
    };
    *value = worth as u64;
    number
}

// Decodes a string text into a destination. Tells 0 and the number of bytes written, or the refusal's number and its place.
#[unsafe(no_mangle)]
pub extern "C" fn farkeztu_unescape(text: &[u8], dst: &mut [u8], value: &mut u64) -> u32
    ensures number { result ≡ number (written (decode text.now) (length dst.old)) }
    ensures value { value.new ≡ worth (written (decode text.now) (length dst.old)) }
    ensures after { dst.new ≡ overwritten (decode text.now) dst.old }
{
    tell(decode_into(text, dst), value)
}

// Tells 0 and how many bytes a string text becomes, or the refusal's number and its place.
#[unsafe(no_mangle)]
pub extern "C" fn farkeztu_unescaped_len(text: &[u8], value: &mut u64) -> u32
    ensures number { result ≡ number (length_told (decode text.now)) }
    ensures value { value.new ≡ worth (length_told (decode text.now)) }
{
    tell(decoded_len(text), value)
}
