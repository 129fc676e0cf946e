// Standard input, read into lent bytes until it ends or they are full.
// Document 01: "the planning program, reading standard input"
// Which bytes were read, and whether a read failed, no contract can say: that is the system's `read`.
#![tactic(auto)]

ghost use Rattle.std.specs.Prelude.{◌≤◌, IfOk, length};

use std::io::{Read, Result, Stdin};

// Reads until the input ends, or the lent bytes are full: how many bytes were read, or the error of a read that failed.
pub fn read_all(stdin: &mut Stdin, out: &mut [u8]) -> Result<usize>
    ensures { IfOk result (λ n. n ≤ length out.new) }
{
    let mut done: usize = 0;
    while done < out.len() {
        let n = stdin.read(&mut out[done..])?;
        if n == 0 {
            break;
        }
        done += n;
    }
    Ok(done)
}
