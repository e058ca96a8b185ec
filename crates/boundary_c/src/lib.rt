// The static library for C and Rust, `farkeztu_unescape` and `farkeztu_unescaped_len`: what they do stands in the crate `boundary`.
// They are written out again, since a static library exports no function but its own, and tell numbers, as C takes them.

#![tactic(auto)]

ghost use Rattle.std.specs.Prelude.{◌≡◌, length};
ghost use Rattle.decode.specs.Decoding.{decode, length_told, written, overwritten};
ghost use Rattle.boundary.specs.Numbers.{number, worth};

// Decodes a string text into a destination. Tells 0 and the number of bytes written, or the refusal's number and its place.
#[unsafe(no_mangle)]
pub extern "C" fn farkeztu_unescape(text: &[u8], dst: &mut [u8], value: &mut u64) -> u32
    ensures number { result ≡ number (written (decode text.now) (length dst.old)) }
    ensures value { value.new ≡ worth (written (decode text.now) (length dst.old)) }
    ensures after { dst.new ≡ overwritten (decode text.now) dst.old }
{
    boundary::farkeztu_unescape(text, dst, value)
}

// Tells 0 and how many bytes a string text becomes, or the refusal's number and its place.
#[unsafe(no_mangle)]
pub extern "C" fn farkeztu_unescaped_len(text: &[u8], value: &mut u64) -> u32
    ensures number { result ≡ number (length_told (decode text.now)) }
    ensures value { value.new ≡ worth (length_told (decode text.now)) }
{
    boundary::farkeztu_unescaped_len(text, value)
}
