// One hex digit.
ghost use Rattle.std.specs.Prelude.{◌≡◌, ◌<◌};
ghost use Rattle.hex_text.specs.Hex.{value_of, digit_for};

// The value of a digit of either case; none for any other character.
#[tactic(auto, using(crate::proofs::Digits::values))]
pub fn value_of(c: u8) -> Option<u8>
    ensures { result ≡ value_of c }
{
    match c {
        b'0'..=b'9' => Some(c - b'0'),
        b'A'..=b'F' => Some(c - b'A' + 10),
        b'a'..=b'f' => Some(c - b'a' + 10),
        _ => None,
    }
}

// The upper-case digit of a value: std's `from_digit` writes lower case.
#[tactic(auto, using(crate::proofs::Digits::digits))]
pub fn digit_for(value: u8) -> u8
    requires { value < 16 }
    ensures { result ≡ digit_for value }
{
    if value < 10 {
        b'0' + value
    } else {
        b'A' + (value - 10)
    }
}
