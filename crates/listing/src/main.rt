#![tactic(auto)]

// The listing program: a survey file on standard input, its listing or a refusal on standard output.
use std::io;
use whole_input::read_full;

// One byte more is read than a file may have, so that a longer one is seen.
// No text for a file is longer than 481,390 bytes (crates/printing/proofs/Longest.antt).
fn main(rt: HostRuntime) -> io::Result<()> {
    let mut room = [0u8; 32769];
    let n = read_full(&mut rt.reader(), &mut room)?;
    let mut out = [0u8; 481390];
    printing::print_listing(&rt, &room[..n], &mut out)
}
