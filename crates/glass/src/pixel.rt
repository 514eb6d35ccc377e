// One pixel: where its value stands in the memory, whether it is lit, by which grey register, and that register's level.
ghost use Rattle.std.specs.Prelude.{◌≡◌, ◌%◌, ◌-◌, ◌≤◌};
ghost use Rattle.glass.specs.Pixel.{ram_row, value_in, is_off, is_driven, is_undriven, register_used, held_by, level_for, level_of};
ghost use Rattle.glass.specs.Glass.{shown_of};

use crate::answer::Shown;
use registers::Registers;

// The row counted from the last one. A row past it is on no glass, and gives 0.
fn mirrored(row: usize) -> usize
    ensures { result ≡ 66 - row }
{
    if 66 < row { 0 } else { 66 - row }
}

// MY = 1 turns the glass upside down.
pub fn ram_row(my: u8, row: usize) -> usize
    ensures { result ≡ ram_row my row }
{
    if my == 1 { mirrored(row) } else { row }
}

// The value of a RAM row in the byte at its place: two bits for each of a bank's four rows, the first row's lowest.
pub fn value_in(byte: u8, ram: usize) -> u8
    ensures { result ≡ value_in byte (ram % 4) }
{
    match ram % 4 {
        0 => byte % 4,
        1 => byte / 4 % 4,
        2 => byte / 16 % 4,
        _ => byte / 64,
    }
}

fn is_off(registers: Registers) -> bool
    ensures { result ≡ is_off registers }
{
    (registers.pd == 1) | (registers.dof == 1)
}

// The eight rows that a partial display drives, if DP names any.
fn is_driven(dp: u8, ram: usize) -> bool
    ensures { result ≡ is_driven dp ram }
{
    ((dp == 0b000) & (ram <= 7)) | ((dp == 0b111) & (56 <= ram) & (ram <= 63))
}

fn is_undriven(ps: u8, dp: u8, ram: usize) -> bool
    ensures { result ≡ is_undriven ps dp ram }
{
    (ps == 1) & !is_driven(dp, ram)
}

// Modes 00 and 01 show register 0 or 3 everywhere, 10 each value in its own register, 11 the same inverted.
fn register_used(d: u8, e: u8, value: u8) -> u8
    requires { value ≤ 3 }
    ensures { result ≡ register_used d e value }
{
    if d == 0 {
        if e == 0 { 0 } else { 3 }
    } else if e == 0 {
        value
    } else {
        3 - value
    }
}

// There is no grey register past the four, and no pixel uses one.
fn held_by(registers: Registers, register: u8) -> u8
    ensures { result ≡ held_by registers register }
{
    match register {
        0 => registers.gs0,
        1 => registers.gs1,
        2 => registers.gs2,
        3 => registers.gs3,
        _ => 0,
    }
}

// Full black is level 64, which six bits can't hold: the chip has 63 stand for it.
fn level_for(held: u8) -> u8
    ensures { result ≡ level_for held }
{
    if held == 63 { 64 } else { held }
}

// The level is made here and not where a register is set: the register is to read 63.
fn level(registers: Registers, register: u8) -> u8
    ensures { result ≡ level_of registers register }
{
    level_for(held_by(registers, register))
}

// What a RAM row shows of the byte at its place.
pub fn shown(registers: Registers, ram: usize, byte: u8) -> Shown
    ensures { result ≡ shown_of registers ram byte }
{
    if is_off(registers) {
        return Shown::Dark;
    }
    if is_undriven(registers.ps, registers.dp, ram) {
        return Shown::Undriven;
    }
    let register = register_used(registers.d, registers.e, value_in(byte, ram));
    Shown::Level(level(registers, register))
}
