// The list's text: whether it had room.
use program_io::reading::Source;
use std::io::Read;

// Whether nothing is left to read. What is left, or an error in reading, is said; such a message begins with the title.
pub fn ended(rt: &HostRuntime, source: &mut Source, title: &[u8]) -> bool {
    let mut more = [0u8; 1];
    match source.read(&mut more) {
        Ok(0) => true,
        Ok(_) => {
            program_io::say(rt, title, b"longer than 1048576 bytes");
            false
        }
        Err(error) => {
            program_io::say_error(rt, title, error);
            false
        }
    }
}
