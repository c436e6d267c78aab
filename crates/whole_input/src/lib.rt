#![tactic(auto)]

// A whole input in a lent slice.
ghost use Rattle.std.specs.Prelude.{IfOk, ◌≤◌, length};

use std::io;
use std::io::Read;

// Reads until the input ends or the slice is full, and returns how many bytes it read.
pub fn read_full<R: Read>(input: &mut R, room: &mut [u8]) -> io::Result<usize>
    ensures { IfOk result (λ n. n ≤ length room.old) }
{
    let mut len: usize = 0;
    while len < room.len() {
        let count = input.read(&mut room[len..])?;
        if count == 0 {
            break;
        }
        len += count;
    }
    Ok(len)
}
