// The values that digits write.
ghost use Rattle.std.specs.Prelude.{◌≡◌, ◌+◌, ◌*◌, ◌^◌, ◌<◌, ◌≤◌};
ghost use Rattle.std.specs.Option.{SomeIff};
ghost use Rattle.rules.specs.Numbers.{digit_of, value_of};
ghost use Rattle.numbers.specs.Written.{below128, Written};

// The value of a digit of the base.
fn to_digit(radix: u32, c: u8) -> Option<u32>
    ensures { result ≡ digit_of radix c }
{
    char::from(c).to_digit(16).filter(|digit| *digit < radix)
}

// The value with one digit more behind it, where that is below 2^128.
fn push_digit(value: u128, radix: u32, digit: u32) -> Option<u128>
    ensures { SomeIff result (value * radix + digit < 2 ^ 128) (value * radix + digit) }
{
    value
        .checked_mul(u128::from(radix))?
        .checked_add(u128::from(digit))
}

// The number that digits and underscores write in the base, where it is below 2^128.
pub fn from_str_radix(digits: &[u8], radix: u32) -> Option<u128>
    ensures value { result ≡ below128 (value_of radix digits.now) }
    ensures written { radix ≤ 16 → Written radix digits.now result }
{
    if digits.is_empty() {
        return None;
    }
    let mut value = 0;
    for c in digits {
        if *c != b'_' {
            value = push_digit(value, radix, to_digit(radix, *c)?)?;
        }
    }
    Some(value)
}
