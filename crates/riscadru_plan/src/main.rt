// The planning program: reads a plan text from standard input and prints its worst delay, the pass-over counts of its
// nodes, its start table and its frame list, or the number of the refusal. Where a read fails it prints nothing, so
// that no part of an input is planned; that, and a write that fails, it says on standard error.
// Document 01: "For S the planning program, reading standard input and lending 3,000 entries and 2,000 frames, prints
// exactly"
#![tactic(auto)]

use limits::{LISTING, TEXT};
use program::print_all;
use standard_input::read_all;
use std::io;

// Prints what the text is answered with.
// The new form is no plainer: one `print` for both programs asks of a closure that its count lies within its array.
fn print(rt: &HostRuntime, text: &[u8]) -> io::Result<()> {
    let mut out = [0u8; LISTING];
    let n = print_all(text, &mut out);
    let written = rt.stdout().write_all(&out[..n]);
    match written {
        Ok(()) => Ok(()),
        Err(_) => rt
            .stderr()
            .write_all(b"riscadru_plan: standard output could not be written\n"),
    }
}

fn main(rt: HostRuntime) -> io::Result<()> {
    // One byte more than a text may have, so that a longer input is refused as too long.
    let mut text = [0u8; TEXT + 1];
    match read_all(&mut rt.stdin(), &mut text) {
        Ok(n) => print(&rt, &text[..n]),
        Err(_) => rt
            .stderr()
            .write_all(b"riscadru_plan: standard input could not be read\n"),
    }
}
