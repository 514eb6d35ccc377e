// The messages of a fill: how many events and bytes they have, and the events themselves, written into a buffer that has room for them.
ghost use Rattle.std.specs.Prelude.{◌≡◌, ◌+◌, ◌-◌, ◌<◌, ◌≤◌, length};
ghost use Rattle.lists.specs.Syntax.{ValidFill};
ghost use Rattle.drawing.specs.Stream.{first_x, fill};
ghost use Rattle.compiler.specs.Writes.{Wrote, RunsFit, run_events, runs_events, runs_of, counts, fill_count};

use crate::emit;
use crate::line::Counts;
use registers::Registers;

// `count` messages of `bytes` display bytes each. The first begins at X x and Y y, and each at dx more and dy more than the one before.
#[derive(Clone, Copy)]
pub struct Runs {
    count: usize,
    bytes: usize,
    event: u16,
    x: u16,
    y: u16,
    dx: u16,
    dy: u16,
}

// The smallest X: with MX = 1 that of the last column.
fn first_x(mx: u8, first: u8, last: u8) -> u8
    requires { last ≤ 100 }
    ensures { result ≡ first_x mx first last }
{
    if mx == 1 { 100 - last } else { first }
}

// How many from first to last.
fn span(first: u8, last: u8) -> usize
    requires { (first ≤ last) × (last ≤ 100) }
    ensures { result ≡ last - first + 1 }
{
    usize::from(last - first) + 1
}

// By columns where V = 1, by banks where V = 0.
// kept (promise): ValidFill, runs_of and fill speak of the five numbers of a fill one by one.
fn runs_of(
    registers: Registers,
    first_column: u8,
    last_column: u8,
    first_bank: u8,
    last_bank: u8,
    byte: u8,
) -> Runs
    requires { ValidFill first_column last_column first_bank last_bank byte }
    ensures { result ≡ runs_of registers first_column last_column first_bank last_bank byte }
{
    let x = u16::from(first_x(registers.mx, first_column, last_column));
    let y = u16::from(first_bank);
    let event = u16::from(registers::reversed::ordered(registers.data_order, byte));
    let columns = span(first_column, last_column);
    let banks = span(first_bank, last_bank);
    if registers.v == 1 {
        Runs {
            count: columns,
            bytes: banks,
            event,
            x,
            y,
            dx: 1,
            dy: 0,
        }
    } else {
        Runs {
            count: banks,
            bytes: columns,
            event,
            x,
            y,
            dx: 0,
            dy: 1,
        }
    }
}

// How many events a fill has.
pub fn count(
    registers: Registers,
    first_column: u8,
    last_column: u8,
    first_bank: u8,
    last_bank: u8,
    byte: u8,
) -> Counts
    requires { ValidFill first_column last_column first_bank last_bank byte }
    ensures { result ≡ counts (fill_count 10 registers first_column last_column first_bank last_bank)
        (fill_count 8 registers first_column last_column first_bank last_bank) }
{
    let runs = runs_of(
        registers,
        first_column,
        last_column,
        first_bank,
        last_bank,
        byte,
    );
    Counts {
        events: runs.count * (10 + runs.bytes),
        bytes: runs.count * (8 + runs.bytes),
    }
}

// One message: n display bytes from X and Y on.
fn write_run(out: &mut [u16], at: usize, pins: u8, x: u16, y: u16, n: usize, event: u16) -> usize
    requires { (at + (10 + n) ≤ length out.old) × (x ≤ 1000) × (y ≤ 1000) }
    ensures { Wrote out.old at (run_events pins x y n event) out.new result }
{
    let address = emit::write_address(pins);
    let started = emit::head(out, at, address, x, y);
    let drawn = emit::repeat(out, started, n, event);
    emit::put(out, drawn, 257)
}

fn write_runs(out: &mut [u16], at: usize, pins: u8, runs: Runs) -> usize
    requires { RunsFit runs × (at + length (runs_events pins runs) ≤ length out.old) }
    ensures { Wrote out.old at (runs_events pins runs) out.new result }
{
    let mut here = at;
    let mut x = runs.x;
    let mut y = runs.y;
    for _ in 0..runs.count {
        here = write_run(out, here, pins, x, y, runs.bytes, runs.event);
        x += runs.dx;
        y += runs.dy;
    }
    here
}

// The events of a fill.
pub fn write(
    out: &mut [u16],
    at: usize,
    pins: u8,
    registers: Registers,
    first_column: u8,
    last_column: u8,
    first_bank: u8,
    last_bank: u8,
    byte: u8,
) -> usize
    requires { ValidFill first_column last_column first_bank last_bank byte
        × (at + length (fill pins registers first_column last_column first_bank last_bank byte) ≤ length out.old) }
    ensures { Wrote out.old at (fill pins registers first_column last_column first_bank last_bank byte) out.new result }
{
    let runs = runs_of(
        registers,
        first_column,
        last_column,
        first_bank,
        last_bank,
        byte,
    );
    write_runs(out, at, pins, runs)
}
