// who ROW COLUMN [CAPTURE]: plays a capture on a chip after reset and tells of a pixel of the glass what it shows, in which cell it stands, and which
// event wrote that cell last, or says at which line the capture is bad. The capture is the file that the argument names, or standard input; it is never
// held as a whole.
#![tactic(auto)]

use program_io::reading::Source;

// `title` is what a message about the capture begins with.
fn who(rt: &HostRuntime, source: &mut Source, title: &[u8], row: usize, column: usize) {
    let mut memory = [0u8; 1717];
    let mut writers = [0u64; 1717];
    let played = capture_file::play(source, &mut memory, &mut writers);
    if let Some(error) = played.failed {
        program_io::say_error(rt, title, error);
        return;
    }
    // No answer is longer than 238 bytes.
    let mut out = program_io::room::<238>();
    let printed = origin::origin_text(played.end, &memory, &writers, row, column, &mut out);
    program_io::put_text(rt, b"who", &out, printed);
}

fn wrong_call(rt: &HostRuntime, fault: &[u8]) {
    program_io::wrong_call(rt, b"who", fault, b"who ROW COLUMN [CAPTURE]");
}

fn main(rt: HostRuntime) {
    if program_io::helped(&rt, b"who", b"who ROW COLUMN [CAPTURE]") {
        return;
    }
    if !program_io::is_given(&rt, 2) {
        wrong_call(&rt, b"too few arguments");
        return;
    }
    if program_io::is_given(&rt, 4) {
        wrong_call(&rt, b"too many arguments");
        return;
    }
    let Some(row @ 0..=66) = program_io::number_given(&rt, 1) else {
        wrong_call(&rt, b"ROW is not a number from 0 to 66");
        return;
    };
    let Some(column @ 0..=100) = program_io::number_given(&rt, 2) else {
        wrong_call(&rt, b"COLUMN is not a number from 0 to 100");
        return;
    };
    program_io::with_input(&rt, b"who", 3, |source, title| {
        who(&rt, source, title, usize::from(row), usize::from(column))
    });
}
