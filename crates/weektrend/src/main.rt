// Reads a week from standard input and writes its listing, or its refusal, to standard output. An input that can't be read to its end
// gives no output, and a line on standard error says so, as it does of a listing that can't be written.
#![tactic(auto)]

use std::io::Write;
use std::time::Clock;

// Writes the listing of the week.
fn print_week<C: Clock, W: Write, E: Write>(
    clock: &C,
    output: &mut W,
    errors: &mut E,
    input: &[u8],
) {
    let mut out = [0u8; 16384];
    let k = week::weekly(input, &mut out);
    if streams::write_whole(clock, output, &out[..k]) < k {
        streams::write_whole(
            clock,
            errors,
            b"weektrend: the listing could not be written whole\n",
        );
    }
}

// One byte more than the 4,096 that a week may have is read, so that a longer input is seen to be longer.
fn main(rt: HostRuntime) {
    let mut input = [0u8; 4097];
    match streams::read_whole(&rt, &mut rt.stdin(), &mut input) {
        Ok(n) => print_week(&rt, &mut rt.stdout(), &mut rt.stderr(), &input[..n]),
        Err(_) => {
            streams::write_whole(
                &rt,
                &mut rt.stderr(),
                b"weektrend: the input could not be read to its end\n",
            );
        }
    }
}
