// Reading an input whole and writing an output whole, over std's read and write. A call that fails is told apart from the end of the
// input, and is first tried again.
#![tactic(auto)]

ghost use Rattle.std.specs.Prelude.{◌≡◌, ◌≤◌, ◌<◌, ◌+◌, ◌^◌, length, IfOk, IfSome};
ghost use Rattle.streams.specs.Streams.{answered, failed, read_on, Within, Ends, Held, Whole};

use std::io::{Read, Write};
use std::time::{Clock, Duration};
use std::{io, thread};

// How often a call that fails is tried again.
const TRIES: u32 = 200;

// Waits a hundredth of a second.
fn pause<C: Clock>(clock: &C) {
    thread::sleep(clock, Duration::from_millis(10));
}

// What a read answered: how many bytes came, at least one, or None at the end of the input.
fn told(answer: io::Result<usize>) -> io::Result<Option<usize>>
    ensures { result ≡ answered answer }
{
    let n = answer?;
    Ok(if n == 0 { None } else { Some(n) })
}

// Whether the call is to be tried again.
fn is_failed(answer: &io::Result<Option<usize>>) -> bool
    ensures { result ≡ failed answer.now }
{
    answer.is_err()
}

// One read.
fn read_once<R: Read>(input: &mut R, buf: &mut [u8]) -> io::Result<Option<usize>>
    ensures within { Within (length buf.new) result }
    ensures end { 0 < length buf.new → Ends result (R.remaining input.new) }
{
    told(input.read(buf))
}

// One read, tried again where it fails.
fn read_some<C: Clock, R: Read>(
    clock: &C,
    input: &mut R,
    buf: &mut [u8],
) -> io::Result<Option<usize>>
    ensures within { Within (length buf.new) result }
    ensures end { 0 < length buf.new → Ends result (R.remaining input.new) }
{
    for _ in 0..TRIES {
        let answer = read_once(input, buf);
        if !is_failed(&answer) {
            return answer;
        }
        pause(clock);
    }
    read_once(input, buf)
}

// How far a reading is: how many bytes came by now, and whether there may be more.
#[derive(Clone, Copy)]
struct Progress {
    bytes: usize,
    more: bool,
}

// How the reading goes on after an answer, n bytes having come before it: a failure stays one.
fn read_on(n: usize, answer: io::Result<Option<usize>>) -> io::Result<Progress>
    requires { IfOk answer (λ g. IfSome g (λ k. n + k < 2 ^ 64)) }
    ensures { result ≡ read_on n answer }
{
    Ok(match answer? {
        Some(k) => Progress {
            bytes: n + k,
            more: true,
        },
        None => Progress {
            bytes: n,
            more: false,
        },
    })
}

// Reads until the input ends, buf is full or a read fails for good: how many bytes the input has, as far as there is room for them.
pub fn read_whole<C: Clock, R: Read>(clock: &C, input: &mut R, buf: &mut [u8]) -> io::Result<usize>
    ensures held { Held buf.new result }
    ensures end { Whole (length buf.new) result (R.remaining input.new) }
{
    let mut done = Progress {
        bytes: 0,
        more: true,
    };
    while done.more && done.bytes < buf.len() {
        done = read_on(done.bytes, read_some(clock, input, &mut buf[done.bytes..]))?;
    }
    Ok(done.bytes)
}

// One write: how many of buf's bytes it took, none where it failed.
fn write_once<W: Write>(output: &mut W, buf: &[u8]) -> usize
    ensures { result ≤ length buf.now }
{
    output.write(buf).unwrap_or(0)
}

// One write, tried again where it fails or takes nothing: how many of buf's bytes it took.
fn write_some<C: Clock, W: Write>(clock: &C, output: &mut W, buf: &[u8]) -> usize
    ensures { result ≤ length buf.now }
{
    for _ in 0..TRIES {
        let put = write_once(output, buf);
        if put > 0 {
            return put;
        }
        pause(clock);
    }
    write_once(output, buf)
}

// Writes buf from its start on: how many bytes were taken, fewer than all of them only where a write failed.
pub fn write_whole<C: Clock, W: Write>(clock: &C, output: &mut W, buf: &[u8]) -> usize
    ensures { result ≤ length buf.now }
{
    let mut done = 0;
    while done < buf.len() {
        let put = write_some(clock, output, &buf[done..]);
        if put == 0 {
            return done;
        }
        done += put;
    }
    done
}
