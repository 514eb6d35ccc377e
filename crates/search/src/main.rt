// search: prints for each page and byte, in order, how many rows are looked at until the one that takes the byte: page, byte, rows, parted by tabs.
#![tactic(auto)]

use print::Printout;
use row_search::{Page, find};

fn line(number: u8, byte: u8, looked: usize, out: &mut Printout) {
    out.field(u64::from(number), b'\t');
    out.field(u64::from(byte), b'\t');
    out.field(looked as u64, b'\n');
}

// The lines of a page, which has this number.
fn lines(page: Page, number: u8, out: &mut Printout) {
    for byte in 0..=255 {
        line(number, byte, find(page, byte).looked, out);
    }
}

fn all_lines(out: &mut Printout) {
    lines(Page::Function, 0, out);
    lines(Page::Display, 1, out);
    lines(Page::Generator, 2, out);
    lines(Page::Grey, 3, out);
    lines(Page::Special, 4, out);
}

fn main(rt: HostRuntime) {
    if program_io::helped(&rt, b"search", b"search") {
        return;
    }
    if program_io::is_given(&rt, 1) {
        program_io::wrong_call(&rt, b"search", b"too many arguments", b"search");
        return;
    }
    // 1,280 lines of at most 8 bytes each.
    let mut out = program_io::room::<65536>();
    let mut text = Printout {
        out: &mut out,
        at: 0,
    };
    all_lines(&mut text);
    let length = text.at;
    program_io::put_text(&rt, b"search", &out, Ok(length));
}
