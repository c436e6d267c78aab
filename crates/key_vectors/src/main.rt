#![tactic(auto)]

// Replays the recorded answers of the key calls, one case a line of standard input: differential/README.md says how they are made.
ghost use Rattle.std.specs.Prelude.{IfOk, ◌≤◌, ◌<◌, length};

use cases::Verdict;
use std::io;
use std::io::Print;
use whole_input::read_full;

mod text; // text.rt: places, numbers and lists of numbers in a text
mod calls; // calls.rt: the answer of a key call, and whether two answers are one
mod cases; // cases.rt: a line's call, its arguments and its recorded answer

#[derive(Clone, Copy)]
struct Tally {
    cases: u64,
    differ: u64,
}

// Where the line after the one from `at` to `end` starts.
fn next_line(s: &[u8], at: usize, end: usize) -> usize
    requires { (at < length s.now) × (at ≤ end) × (end ≤ length s.now) }
    ensures { (at < result) × (result ≤ length s.now) }
{
    if end < s.len() {
        return end + 1;
    }
    end
}

// 1 for a line with a case.
fn counted(verdict: Verdict) -> u64
    ensures { result ≤ 1 }
{
    match verdict {
        Verdict::Comment => 0,
        Verdict::Agrees => 1,
        Verdict::Differs => 1,
    }
}

// 1 for a line whose case differs, which is then named.
fn reported(rt: &impl Print, verdict: Verdict, line: u64) -> io::Result<u64>
    ensures { IfOk result (λ count. count ≤ 1) }
{
    match verdict {
        Verdict::Comment => Ok(0),
        Verdict::Agrees => Ok(0),
        Verdict::Differs => {
            println!(rt; "line {line} differs")?;
            Ok(1)
        }
    }
}

// Judges each line, and names those that differ.
fn replay(rt: &impl Print, s: &[u8]) -> io::Result<Tally> {
    let mut line: u64 = 0;
    let mut cases: u64 = 0;
    let mut differ: u64 = 0;
    let mut at: usize = 0;
    while at < s.len() {
        let end = text::find(s, at, b'\n');
        let verdict = cases::judge(&s[at..end]);
        line += 1;
        cases += counted(verdict);
        differ += reported(rt, verdict, line)?;
        at = next_line(s, at, end);
    }
    Ok(Tally { cases, differ })
}

fn write_tally(rt: &impl Print, tally: Tally) -> io::Result<()> {
    let cases = tally.cases;
    let differ = tally.differ;
    println!(rt; "key vectors: {cases} cases, {differ} differ")
}

fn main(rt: HostRuntime) -> io::Result<()> {
    let mut room = [0u8; 262144];
    let n = read_full(&mut rt.reader(), &mut room)?;
    if n == 262144 {
        println!(rt; "key vectors: the input is too long")?;
        return Ok(());
    }
    write_tally(&rt, replay(&rt, &room[..n])?)
}
