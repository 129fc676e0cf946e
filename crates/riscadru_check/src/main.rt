// The program that checks a printed table: reads a plan up to the first empty line, then a listing, from standard
// input, and prints `(accepted)` or the number of the refusal. Where a read fails it prints nothing, so that no part of
// an input is checked; that, and a write that fails, it says on standard error.
// Document 02, point 2: "and prints `(accepted)` or the refusal"
#![tactic(auto)]

use check_program::print_check;
use limits::{INPUT, VERDICT};
use standard_input::read_all;
use std::io;

// Prints what the input is answered with.
// The new form is no plainer: one `print` for both programs asks of a closure that its count lies within its array.
fn print(rt: &HostRuntime, input: &[u8]) -> io::Result<()> {
    let mut out = [0u8; VERDICT];
    let n = print_check(input, &mut out);
    let written = rt.stdout().write_all(&out[..n]);
    match written {
        Ok(()) => Ok(()),
        Err(_) => rt
            .stderr()
            .write_all(b"riscadru_check: standard output could not be written\n"),
    }
}

fn main(rt: HostRuntime) -> io::Result<()> {
    // Room for the longest plan, an empty line, the longest listing, and one byte more, so that a longer input is
    // refused as its beginning is.
    let mut bytes = [0u8; INPUT];
    match read_all(&mut rt.stdin(), &mut bytes) {
        Ok(n) => print(&rt, &bytes[..n]),
        Err(_) => rt
            .stderr()
            .write_all(b"riscadru_check: standard input could not be read\n"),
    }
}
