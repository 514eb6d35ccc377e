// wires PINS [SAMPLES]: prints the capture of what was on the two wires of the bus, from samples of them as they are read: the `pins` line, then
// one event number a line; at a byte above 3, which is no sample, the line that says where it stands, and no more. A sample has SCL in bit 1 and SDA
// in bit 0. The samples are the file that SAMPLES names, or standard input; they are never held as a whole. How many were unclear, because both lines
// changed at once, is told on standard error at the end.
#![tactic(auto)]

mod unclear;

use program_io::reading::Source;

const USAGE: [u8; 20] = *b"wires PINS [SAMPLES]";

fn wrong_call(rt: &HostRuntime, fault: &[u8]) {
    program_io::wrong_call(rt, b"wires", fault, &USAGE);
}

fn capture(rt: &HostRuntime, source: &mut Source, title: &[u8], pins: u8) {
    let captured = wire_file::capture(rt, b"wires", source, pins);
    if !captured.printed {
        return;
    }
    // Those of the part that was read are told where reading failed behind it, too.
    unclear::tell(rt, captured.unclear);
    if let Some(error) = captured.failed {
        program_io::say_error(rt, title, error);
    }
}

fn main(rt: HostRuntime) {
    if program_io::helped(&rt, b"wires", &USAGE) {
        return;
    }
    if !program_io::is_given(&rt, 1) {
        wrong_call(&rt, b"too few arguments");
        return;
    }
    if program_io::is_given(&rt, 3) {
        wrong_call(&rt, b"too many arguments");
        return;
    }
    let Some(pins @ 0..=3) = program_io::number_given(&rt, 1) else {
        wrong_call(&rt, b"PINS is not 0, 1, 2 or 3");
        return;
    };
    program_io::with_input(&rt, b"wires", 2, |source, title| {
        capture(&rt, source, title, pins as u8);
    });
}
