// trace [CAPTURE]: plays a capture on a chip after reset and prints a line for each event as it is read: its number, the event, what it is to the chip
// as it then stands, and the answer; or at which line the capture is bad. The capture is the file that the argument names, or standard input; it is
// never held as a whole.
#![tactic(auto)]

use program_io::reading::Source;

// `title` is what a message about the capture begins with.
fn trace(rt: &HostRuntime, source: &mut Source, title: &[u8]) {
    let mut memory = [0u8; 1717];
    let mut writers = [0u64; 1717];
    let followed = trace_file::follow(rt, b"trace", source, true, &mut memory, &mut writers);
    if !followed.printed {
        return;
    }
    if let Some(error) = followed.failed {
        program_io::say_error(rt, title, error);
        return;
    }
    // The line of a capture that is bad, behind those of the events before it.
    let mut out = program_io::room::<64>();
    let printed = listing::refused(b"", followed.end, &mut out);
    program_io::put_text(rt, b"trace", &out, printed);
}

fn main(rt: HostRuntime) {
    program_io::on_one_input(
        &rt,
        b"trace",
        b"trace [CAPTURE]",
        |source, title| trace(&rt, source, title),
    );
}
