// replay [CAPTURE]: plays a capture on a chip after reset and lists the cells that it wrote, each with the event that wrote it last, or says at which
// line the capture is bad. The capture is the file that the argument names, or standard input; it is never held as a whole.
#![tactic(auto)]

use program_io::reading::Source;

// `title` is what a message about the capture begins with.
fn replay(rt: &HostRuntime, source: &mut Source, title: &[u8]) {
    let mut memory = [0u8; 1717];
    let mut writers = [0u64; 1717];
    let played = capture_file::play(source, &mut memory, &mut writers);
    if let Some(error) = played.failed {
        program_io::say_error(rt, title, error);
        return;
    }
    // No listing is longer than 54,967 bytes.
    let mut out = program_io::room::<54967>();
    let printed = listing::replay_text(played.end, &memory, &writers, &mut out);
    program_io::put_text(rt, b"replay", &out, printed);
}

fn main(rt: HostRuntime) {
    program_io::on_one_input(
        &rt,
        b"replay",
        b"replay [CAPTURE]",
        |source, title| replay(&rt, source, title),
    );
}
