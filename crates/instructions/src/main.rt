// Prints the tables of docs/INSTRUCTIONS.md from the chip's own data: the commands bit by bit, the order of the search, and the registers.
#![tactic(auto)]

mod names;

use instruction_table::table;
use print::Printout;
use registers::limits;

// A number, and what parts it from the next field.
fn entry(n: u64, out: &mut Printout) {
    out.decimal(n);
    out.bytes(b" | ");
}

// The field's name and, where it has several bits, the bit's number in it. The record holds neither of the two fields of row block swapping, TRS
// above BRS.
fn field(part: usize, place: u8, out: &mut Printout) {
    let target = table::part_target(part);
    let low = table::part_low(part);
    if target == table::UNHELD && low == 3 {
        out.bytes(b"BRS");
        return;
    }
    names::target(usize::from(target), out);
    if 1 < table::part_width(part) && low <= place {
        out.decimal(u64::from(place - low));
    }
}

// Whether a part belongs to the row and has the bit at that place of the byte.
fn has(part: usize, row: usize, place: u8) -> bool {
    let low = usize::from(table::part_low(part));
    let width = usize::from(table::part_width(part));
    usize::from(table::part_row(part)) == row && (low..low + width).contains(&usize::from(place))
}

fn open_bit(row: usize, place: u8, out: &mut Printout) {
    for part in 0..table::PARTS {
        if has(part, row, place) {
            field(part, place, out);
        }
    }
}

// The eight bits of a row, from DB7 down.
fn bits(row: usize, out: &mut Printout) {
    let code = table::code(row);
    let fixed = table::fixed(row);
    for place in (0..8).rev() {
        out.bytes(b" | ");
        if fixed >> place & 1 == 1 {
            out.decimal(u64::from(code >> place & 1));
        } else {
            open_bit(row, place, out);
        }
    }
}

fn page(row: usize, out: &mut Printout) {
    let page = table::page(row);
    if page == table::EVERY_PAGE {
        out.bytes(b"any");
    } else {
        out.decimal(u64::from(page));
    }
}

fn row_line(row: usize, out: &mut Printout) {
    out.bytes(b"| ");
    entry(row as u64, out);
    page(row, out);
    out.bytes(b" | ");
    names::row(row, out);
    bits(row, out);
    out.bytes(b" |\n");
}

fn command_table(out: &mut Printout) {
    out.bytes(b"| Row | Page | Instruction | DB7 | DB6 | DB5 | DB4 | DB3 | DB2 | DB1 | DB0 |\n");
    out.bytes(b"|---|---|---|---|---|---|---|---|---|---|---|\n");
    for row in 0..table::ROWS {
        row_line(row, out);
    }
}

// The places of an order, empty past its end. No page has more than seven.
fn order_line(page: u64, rows: &[u8], out: &mut Printout) {
    out.bytes(b"| ");
    out.decimal(page);
    out.bytes(b" |");
    for place in 0..7 {
        if let Some(row) = rows.get(place) {
            out.bytes(b" ");
            out.decimal(u64::from(*row));
        }
        out.bytes(b" |");
    }
    out.bytes(b"\n");
}

fn order_table(out: &mut Printout) {
    out.bytes(b"| Page | 1 | 2 | 3 | 4 | 5 | 6 | 7 |\n");
    out.bytes(b"|---|---|---|---|---|---|---|---|\n");
    order_line(0, &row_search::FUNCTION, out);
    order_line(1, &row_search::DISPLAY, out);
    order_line(2, &row_search::GENERATOR, out);
    order_line(3, &row_search::GREY, out);
    order_line(4, &row_search::SPECIAL, out);
}

// A part sets its own register; the part for the register that GR selects sets each of the four.
fn sets(part: usize, register: usize) -> bool {
    let target = table::part_target(part);
    usize::from(target) == register || target == table::SELECTED && (21..=24).contains(&register)
}

fn rows_for(register: usize, out: &mut Printout) {
    for part in 0..table::PARTS {
        if sets(part, register) {
            out.bytes(b" ");
            out.decimal(u64::from(table::part_row(part)));
        }
    }
}

fn register_line(register: usize, out: &mut Printout) {
    out.bytes(b"| ");
    entry(register as u64, out);
    names::target(register, out);
    out.bytes(b" | ");
    names::short(register, out);
    out.bytes(b" | ");
    entry(u64::from(limits::width(register)), out);
    entry(u64::from(limits::limit(register)), out);
    out.decimal(u64::from(limits::reset(register)));
    out.bytes(b" |");
    rows_for(register, out);
    out.bytes(b" |\n");
}

fn register_table(out: &mut Printout) {
    out.bytes(b"| Place | Register | Short name | Bits | Largest | Reset | Rows |\n");
    out.bytes(b"|---|---|---|---|---|---|---|\n");
    for register in 0..limits::REGISTERS {
        register_line(register, out);
    }
}

fn tables(out: &mut Printout) {
    command_table(out);
    order_table(out);
    register_table(out);
}

fn main(rt: HostRuntime) {
    // Less than 4,096 bytes.
    let mut out = program_io::room::<4096>();
    let mut text = Printout {
        out: &mut out,
        at: 0,
    };
    tables(&mut text);
    let length = text.at;
    program_io::put_text(&rt, b"instructions", &out, Ok(length));
}
