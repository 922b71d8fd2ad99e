// What the program `fill` writes of the bytes that it read: the filled text, or the refusal's number and line.
#![tactic(auto)]

ghost use Rattle.std.specs.Prelude.{◌≡◌, [], ◌∷◌, ◌++◌};
ghost use Rattle.paper.specs.Text.{line_feed};
ghost use Rattle.paper.specs.Program.{decimal, refusal_line, program_size, program_leaves};
ghost use Rattle.filled_lines.specs.Wrote.{Fits, Wrote};

use file_fill::fill;
use filled_lines::put_byte;
use paper::{Filling, limit};
use text_bytes::byte;

// The digits follow it, up to 9.
const ZERO: u8 = b'0';

// A number in decimal: what a tenth of it has, then its last digit. By hand, since by its contract a `write!` may fail at any
// writer, and `output` may not.
fn put_decimal(n: usize, out: &mut [u8]) -> usize
    requires { Fits (decimal n) out.old }
    ensures { Wrote (decimal n) out.old out.new result }
{
    if n < 10 {
        return put_byte(ZERO + n as u8, out);
    }
    let end = put_decimal(n / 10, out);
    end + put_byte(ZERO + (n % 10) as u8, &mut out[end..])
}

// A number, to the end of its line.
fn end_number(n: usize, out: &mut [u8]) -> usize
    requires { Fits (decimal n ++ (line_feed ∷ [])) out.old }
    ensures { Wrote (decimal n ++ (line_feed ∷ [])) out.old out.new result }
{
    let end = put_decimal(n, out);
    end + put_byte(byte::LINE_FEED, &mut out[end..])
}

fn refusal_line(number: usize, line: usize, out: &mut [u8]) -> usize
    requires { Fits (refusal_line number line) out.old }
    ensures { Wrote (refusal_line number line) out.old out.new result }
{
    let a = put_decimal(number, out);
    let b = a + put_byte(byte::SPACE, &mut out[a..]);
    b + end_number(line, &mut out[b..])
}

// What the program writes stands at the front of the output; the answer is how many bytes it has.
pub fn output(text: &[u8], out: &mut [u8; limit::TEXT_BYTES]) -> usize
    ensures value { result ≡ program_size text.now }
    ensures out_after { out.new ≡ program_leaves text.now out.old }
{
    match fill(text, out) {
        Filling::Written { size } => size as usize,
        Filling::Unfilled { number, line } => refusal_line(number as usize, line as usize, out),
    }
}
