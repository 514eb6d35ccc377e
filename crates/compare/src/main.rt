// compare FIRST SECOND: plays two captures, each on a chip after reset, and lists the cells and the registers that differ at their ends, or says in
// which of the two files a line is bad. Neither capture is ever held as a whole, and both files are open before the first is read.
#![tactic(auto)]

use capture::End;
use program_io::reading::Source;
use refusals::Refusal;

// What a capture came to, and the memories that it left.
#[derive(Drop)]
struct Outcome {
    end: Result<End, Refusal>,
    memory: [u8; 1717],
    writers: [u64; 1717],
}

// `title` is what a message about the capture begins with. None where the reading failed, which has been said.
fn play(rt: &HostRuntime, source: &mut Source, title: &[u8]) -> Option<Outcome> {
    let mut memory = [0u8; 1717];
    let mut writers = [0u64; 1717];
    let played = capture_file::play(source, &mut memory, &mut writers);
    if let Some(error) = played.failed {
        program_io::say_error(rt, title, error);
        return None;
    }
    Some(Outcome {
        end: played.end,
        memory,
        writers,
    })
}

fn tell(rt: &HostRuntime, first: &Outcome, second: &Outcome) {
    // No comparison is longer than 98,277 bytes.
    let mut out = program_io::room::<98277>();
    let printed = differences::comparison(
        first.end,
        &first.memory,
        &first.writers,
        second.end,
        &second.memory,
        &second.writers,
        &mut out,
    );
    program_io::put_text(rt, b"compare", &out, printed);
}

fn compare(
    rt: &HostRuntime,
    first: &mut Source,
    first_title: &[u8],
    second: &mut Source,
    second_title: &[u8],
) {
    let Some(one) = play(rt, first, first_title) else {
        return;
    };
    // Of a first capture that is bad, the line is told whatever the second is, and that one is not read.
    let Ok(End::Whole(_, _)) = one.end else {
        tell(rt, &one, &one);
        return;
    };
    if let Some(other) = play(rt, second, second_title) {
        tell(rt, &one, &other);
    }
}

fn wrong_call(rt: &HostRuntime, fault: &[u8]) {
    program_io::wrong_call(rt, b"compare", fault, b"compare FIRST SECOND");
}

fn main(rt: HostRuntime) {
    if program_io::helped(&rt, b"compare", b"compare FIRST SECOND") {
        return;
    }
    if !program_io::is_given(&rt, 2) {
        wrong_call(&rt, b"too few arguments");
        return;
    }
    if program_io::is_given(&rt, 3) {
        wrong_call(&rt, b"too many arguments");
        return;
    }
    if program_io::is_standard_input(&rt, 1) && program_io::is_standard_input(&rt, 2) {
        wrong_call(&rt, b"only one of the two can be standard input");
        return;
    }
    program_io::with_input(&rt, b"compare", 1, |first, first_title| {
        program_io::with_input(&rt, b"compare", 2, |second, second_title| {
            compare(&rt, first, first_title, second, second_title)
        })
    });
}
