// view [CAPTURE]: plays a capture on a chip after reset and prints what the glass then shows, as a portable pixmap, or says at which line the capture
// is bad. The capture is the file that the argument names, or standard input; it is never held as a whole.
#![tactic(auto)]

use capture::End;
use program_io::reading::Source;

// `title` is what a message about the capture begins with.
fn view(rt: &HostRuntime, source: &mut Source, title: &[u8]) {
    let mut memory = [0u8; 1717];
    let mut writers = [0u64; 1717];
    let played = capture_file::play(source, &mut memory, &mut writers);
    if let Some(error) = played.failed {
        program_io::say_error(rt, title, error);
        return;
    }
    // No picture is longer than 81,218 bytes.
    let mut out = program_io::room::<81218>();
    let printed = match played.end {
        Ok(End::Whole(chip, _)) => picture::pixmap(chip, &memory, &mut out),
        bad => listing::refused(b"", bad, &mut out),
    };
    program_io::put_text(rt, b"view", &out, printed);
}

fn main(rt: HostRuntime) {
    program_io::on_one_input(
        &rt,
        b"view",
        b"view [CAPTURE]",
        |source, title| view(&rt, source, title),
    );
}
