#![tactic(auto)]

// Replays recorded listings: for each file of a container on standard input, what the listing program writes of it.
// differential/README.md says how they are made.
use std::io;
use std::io::Print;
use whole_input::read_full;

// Answers each file of a container: its number, and its listing.
fn replay(rt: &impl Print, s: &[u8], out: &mut [u8]) -> io::Result<()> {
    let mut number: u64 = 0;
    let mut at: usize = 0;
    while at < s.len() {
        println!(rt; "file {number}")?;
        let Some(part) = container::part_at(s, at) else {
            return println!(rt; "not whole");
        };
        printing::print_listing(rt, &s[part.start..part.end], out)?;
        number += 1;
        at = part.end;
    }
    Ok(())
}

fn main(rt: HostRuntime) -> io::Result<()> {
    let mut room = [0u8; 262144];
    let n = read_full(&mut rt.reader(), &mut room)?;
    if n == 262144 {
        println!(rt; "listing vectors: the input is too long")?;
        return Ok(());
    }
    let mut out = [0u8; 481390];
    replay(&rt, &room[..n], &mut out)
}
