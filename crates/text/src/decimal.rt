// Numbers as document 01 writes them in lists and captures: 1 to 3 digits, no leading zero but for 0 itself.
ghost use Rattle.std.specs.Prelude.{◌≡◌, ◌<◌};
ghost use Rattle.text.specs.Decimal.{is_leading, digit_value, one_digit, two_digits, three_digits, number_of};

fn is_leading(byte: u8) -> bool
    ensures { result ≡ is_leading byte }
{
    matches!(byte, b'1'..=b'9')
}

// The value of a digit. It is asked only of digits, and answers 0 below them.
fn digit(byte: u8) -> u16
    ensures value { result ≡ digit_value byte }
    ensures bound { result < 208 }
{
    u16::from(byte.saturating_sub(b'0'))
}

fn one_digit(a: u8) -> Option<u16>
    ensures { result ≡ one_digit a }
{
    a.is_ascii_digit().then_some(digit(a))
}

fn two_digits(a: u8, b: u8) -> Option<u16>
    ensures { result ≡ two_digits a b }
{
    (is_leading(a) && b.is_ascii_digit()).then_some(digit(a) * 10 + digit(b))
}

fn three_digits(a: u8, b: u8, c: u8) -> Option<u16>
    ensures { result ≡ three_digits a b c }
{
    (is_leading(a) && b.is_ascii_digit() && c.is_ascii_digit()).then_some(
        digit(a) * 100 + digit(b) * 10 + digit(c),
    )
}

// The number that these bytes write, all of them; none where they write none.
#[tactic(auto, unfolding(crate::specs::Decimal::number_of))]
pub fn number(s: &[u8]) -> Option<u16>
    ensures { result ≡ number_of s.now }
{
    match s {
        [a] => one_digit(*a),
        [a, b] => two_digits(*a, *b),
        [a, b, c] => three_digits(*a, *b, *c),
        _ => None,
    }
}
