// The names that the data sheet gives to rows, registers and fields. What a name stands for is the table's, by number.
use print::Printout;
use registers::names::SEPARATOR;
use text::pieces::piece;

pub fn row(k: usize, out: &mut Printout) {
    let name = piece(
        b"NOP|Default H2 to H0|Instruction set|Select function|Set Y address of DDRAM|\
          Set X address of DDRAM|Display control|External display control|Bias system|Bias system 1/2|\
          Display part|High voltage generator control|High voltage generator configuration|\
          Temperature control|Temperature measurement control|VLCD control|Grey-scale register control|\
          Grey-scale level control|Display off, direct drive mode|Oscillator setting|Row block swapping",
        b'|',
        k,
    );
    out.bytes(name);
}

// A register by its place, then the targets that are none.
pub fn target(k: usize, out: &mut Printout) {
    let name = piece(
        b"H|DO|PD|V|D|E|MX|MY|PS|X|Y|BS|BS1/2|DP|PRS|HVE|S|TC|SM|VOP|GR|Grey 0|Grey 1|Grey 2|Grey 3|DOF|DM|EC|OC|GS|TRS",
        b'|',
        k,
    );
    out.bytes(name);
}

// The same registers as drawing lists name them.
pub fn short(k: usize, out: &mut Printout) {
    let names = registers::names::all();
    out.bytes(piece(&names, SEPARATOR, k));
}
