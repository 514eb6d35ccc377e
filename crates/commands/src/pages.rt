// A row's method, by the row's place in the table. The comments name the pages, and what each is for.
ghost use Rattle.std.specs.Prelude.{◌≡◌};
ghost use Rattle.registers.specs.Table.{taken};
ghost use Rattle.commands.specs.Command.{parts_at};

use registers::Registers;

// Past the table there is no row, and nothing is done.
pub fn in_every_page(registers: Registers, row: usize, byte: u8) -> Registers
    ensures { result ≡ taken (parts_at row) byte registers }
{
    match row {
        // in every page
        0 => registers.no_operation(),
        1 => registers.page_return(),
        // page 0, function and RAM
        2 => registers.instruction_set(byte),
        3 => registers.select_function(byte),
        4 => registers.set_y(byte),
        5 => registers.set_x(byte),
        // page 1, display setting
        6 => registers.display_control(byte),
        7 => registers.external_display_control(byte),
        8 => registers.bias_system(byte),
        9 => registers.bias_system_half(byte),
        10 => registers.display_part(byte),
        // page 2, high voltage generator
        11 => registers.generator_control(byte),
        12 => registers.generator_configuration(byte),
        13 => registers.temperature_control(byte),
        14 => registers.temperature_measurement(byte),
        15 => registers.vlcd_control(byte),
        // page 3, grey-scale and colour
        16 => registers.grey_register(byte),
        17 => registers.grey_level(byte),
        // page 4, special features
        18 => registers.display_off(byte),
        19 => registers.oscillator_setting(byte),
        20 => registers.row_block_swapping(byte),
        _ => registers,
    }
}
