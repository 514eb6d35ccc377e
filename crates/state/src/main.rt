// state [CAPTURE]: plays a capture on a chip after reset and prints the chip at its end: the registers by name, pins, status byte, last RS, phase and
// event count, how many bytes from the master were acknowledged and how many not, and how many pixels have each value; or says at which line the capture
// is bad. The capture is the file that the argument names, or standard input; it is never held as a whole.
#![tactic(auto)]

use program_io::reading::Source;

// `title` is what a message about the capture begins with.
fn state(rt: &HostRuntime, source: &mut Source, title: &[u8]) {
    let mut memory = [0u8; 1717];
    let mut writers = [0u64; 1717];
    let followed = trace_file::follow(rt, b"state", source, false, &mut memory, &mut writers);
    if let Some(error) = followed.failed {
        program_io::say_error(rt, title, error);
        return;
    }
    let mut out = program_io::room::<4096>();
    let printed = chip_text::chip_text(followed.end, followed.tally, &mut out);
    program_io::put_text(rt, b"state", &out, printed);
}

fn main(rt: HostRuntime) {
    program_io::on_one_input(
        &rt,
        b"state",
        b"state [CAPTURE]",
        |source, title| state(&rt, source, title),
    );
}
