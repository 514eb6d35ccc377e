// The event line that four bytes begin with. None has more: one to three digits, and a newline.
ghost use Rattle.std.specs.Prelude.{◌≡◌, Some};
ghost use Rattle.text.specs.Decimal.{one_digit};
ghost use Rattle.capture_lines.specs.Events.{Digits, line_of, line_in, line_of_digits, is_long};

use crate::bytes::NEWLINE;

// The event, and how many bytes its line has, the newline among them.
#[derive(Clone, Copy, Debug, PartialEq, Eq, Hash)]
pub struct EventLine {
    pub event: u16,
    pub bytes: usize,
}

fn of_one_digit(a: u8) -> Option<EventLine>
    ensures { result ≡ line_of 2 (one_digit a) }
{
    if a.is_ascii_digit() {
        return Some(EventLine {
            event: u16::from(a - b'0'),
            bytes: 2,
        });
    }
    None
}

// Two digits or three, the first of them no 0, and the newline.
#[tactic(auto, unfolding(crate::specs::Events::is_long))]
fn is_long(a: u8, b: u8, c: u8, d: u8) -> bool
    ensures { result ≡ is_long a b c d }
{
    let ended = (c == NEWLINE) | (c.is_ascii_digit() & (d == NEWLINE));
    matches!(a, b'1'..=b'9') && b.is_ascii_digit() && ended
}

// The two digits, or three, and the newline behind them. How many they are no processor foresees, so nothing branches on it: c / 32 is 1 for a digit
// and 0 for a newline.
fn of_digits(a: u8, b: u8, c: u8) -> EventLine
    requires { Digits a b c }
    ensures { Some result ≡ line_of_digits a b c }
{
    let third = usize::from(c / 32);
    let two = usize::from(a) * 10 + usize::from(b) - 528;
    EventLine {
        event: (two + third * (two * 9 + usize::from(c) - 48)) as u16,
        bytes: 3 + third,
    }
}

// One digit is rare enough to branch on.
pub fn line_in(a: u8, b: u8, c: u8, d: u8) -> Option<EventLine>
    ensures { result ≡ line_in a b c d }
{
    if b == NEWLINE {
        return of_one_digit(a);
    }
    if is_long(a, b, c, d) {
        return Some(of_digits(a, b, c));
    }
    None
}
