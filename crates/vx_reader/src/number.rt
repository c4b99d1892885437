ghost use Rattle.std.specs.Prelude.{◌≡◌, ◌≤◌, ◌<◌, ◌+◌, ◌*◌, ◌^◌, min};
ghost use Rattle.std.specs.List.{AllPass};
ghost use Rattle.std.specs.Char.{is_ascii_digit};
ghost use Rattle.vx_reader.specs.Tokens as spec;

// All numbers that are not below this one are taken for it.
const CAP: u128 = 1 << 127;

// The number with one more digit.
fn with_digit(number: u128, digit: u8) -> u128
    requires capped { number ≤ 2 ^ 127 }
    requires digit { digit < 10 }
    ensures { result ≡ min (number * 10 + digit) (2 ^ 127) }
{
    if number > CAP / 10 {
        CAP
    } else {
        (number * 10 + digit as u128).min(CAP)
    }
}

/// The number that digits write, or 2 to the power of 127 where it is greater.
pub fn number(digits: &[u8]) -> u128
    requires { AllPass is_ascii_digit digits.now }
    ensures { result ≡ spec.number digits.now }
{
    let mut number = 0;
    for digit in digits {
        number = with_digit(number, *digit - b'0');
    }
    number
}
