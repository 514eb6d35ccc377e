// Events written into a buffer that has room for them.
ghost use Rattle.std.specs.Prelude.{[], ◌∷◌, ◌≡◌, ◌+◌, ◌<◌, ◌≤◌, length, replicate};
ghost use Rattle.chip.specs.Plays.{write_address};
ghost use Rattle.compiler.specs.Writes.{Wrote};

// One event.
pub fn put(out: &mut [u16], at: usize, event: u16) -> usize
    requires { at < length out.old }
    ensures { Wrote out.old at (event ∷ []) out.new result }
{
    out[at] = event;
    at + 1
}

// Two events, as a control byte and its command.
pub fn pair(out: &mut [u16], at: usize, first: u16, second: u16) -> usize
    requires { at + 2 ≤ length out.old }
    ensures { Wrote out.old at (first ∷ second ∷ []) out.new result }
{
    let next = put(out, at, first);
    put(out, next, second)
}

// The same event n times.
pub fn repeat(out: &mut [u16], at: usize, n: usize, event: u16) -> usize
    requires { at + n ≤ length out.old }
    ensures { Wrote out.old at (replicate n event) out.new result }
{
    let next = at + n;
    out[at..next].fill(event);
    next
}

// START, address, page return, X and Y, and the control byte before display data.
pub fn head(out: &mut [u16], at: usize, address: u16, x: u16, y: u16) -> usize
    requires { (at + 9 ≤ length out.old) × (x ≤ 1000) × (y ≤ 1000) }
    ensures { Wrote out.old at (256 ∷ address ∷ 128 ∷ 1 ∷ 128 ∷ (128 + x) ∷ 128 ∷ (64 + y) ∷ 64 ∷ []) out.new result }
{
    let started = pair(out, at, 256, address);
    let in_page = pair(out, started, 128, 1);
    let at_x = pair(out, in_page, 128, 128 + x);
    let at_y = pair(out, at_x, 128, 64 + y);
    put(out, at_y, 64)
}

pub fn write_address(pins: u8) -> u16
    ensures { result ≡ write_address pins }
{
    120 + 2 * u16::from(pins)
}
