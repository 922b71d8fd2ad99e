// Reads a policy from standard input and writes the filled text, or the refusal's number and line. Crate `fill_output` makes what is written of
// what was read; here the bytes only come and go.
#![tactic(auto)]

use fill_output::output;
use input::read_all;
use paper::limit;
use std::io::Print;

// A sentence to standard error. Where that is closed too, nobody is left to tell.
fn tell(rt: &HostRuntime, what: &str) {
    let _ = eprintln!(rt; "fill: {what}");
}

// The answer to standard output, and nothing else there.
fn write_answer(rt: &HostRuntime, text: &[u8]) {
    let mut out = [0u8; limit::TEXT_BYTES];
    let size = output(text, &mut out);
    if rt.stdout().write_all(&out[..size]).is_err() {
        tell(rt, "standard output cannot be written");
    }
}

fn main(rt: HostRuntime) {
    // One byte more than a text may have: with that byte in, it is refused whatever follows.
    let mut text = [0u8; limit::TEXT_BYTES + 1];
    match read_all(&mut rt.stdin(), &mut text) {
        Ok(n) => write_answer(&rt, &text[..n]),
        Err(_) => tell(&rt, "standard input cannot be read"),
    }
}
