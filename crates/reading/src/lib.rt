// What the programs read: standard input, into a slice of bytes.
#![tactic(auto)]

ghost use Rattle.std.specs.Prelude.{◌≤◌, length, IfOk};

use std::io::{self, Read};

// Reads until a slice is full or the input ends, and returns how many bytes stand at its front; or
// the error of a read that failed.
pub fn read_full<R: Read>(reader: &mut R, bytes: &mut [u8]) -> io::Result<usize>
    ensures { IfOk result (λ n. n ≤ length bytes.new) }
{
    let mut done = 0;
    while done < bytes.len() {
        let read = reader.read(&mut bytes[done..])?;
        if read == 0 {
            break;
        }
        done += read;
    }
    Ok(done)
}
