// The program of docs/RULES.md, "The program": it reads a template and lists from standard input, and prints a line for each list.
// Where it can't read, or can't print, it says so on standard error.
#![tactic(auto)]

ghost use Rattle.std.specs.Prelude.{◌≡◌, ◌+◌, ◌*◌, ◌≤◌, length, min, take, IfOk};
ghost use Rattle.std.specs.Option.{unwrap_or};
ghost use Rattle.std.specs.Result.{is_err, result_ok};

use rendering::render;
use std::io;
use std::io::{Read, Write};

// One byte more than an input may have, so that a longer one is seen to be longer.
fn input_buffer() -> [u8; 65537]
    ensures { 65537 ≡ length result }
{
    [0; 65537]
}

// The longest input whose output fits into `large_buffer`. Most are shorter, and to clear a longer buffer takes longer than to answer them.
const SHORT: usize = 13056;

// Room for what `render` asks for, for the inputs that are no longer than `SHORT`.
fn large_buffer() -> [u8; 65536]
    ensures { 65536 ≡ length result }
{
    [0; 65536]
}

// What `render` asks for, for the longest input that is read: five bytes for each of its bytes, and 256.
fn output_buffer() -> [u8; 327941]
    ensures { 327941 ≡ length result }
{
    [0; 327941]
}

// Reading failed before the input ended.
#[derive(Clone, Copy)]
struct Unread;

// What an answer of `read` says of the part that it was to fill: an error is a failure, 0 the end of the input.
fn taken_by(got: io::Result<usize>, part: &[u8]) -> Result<usize, Unread>
    ensures number { IfOk result (λ n. n ≡ min (unwrap_or (result_ok got) 0) (length part.now)) }
    ensures failed { is_err result ≡ is_err got }
{
    match got {
        Ok(n) => Ok(n.min(part.len())),
        Err(_) => Err(Unread),
    }
}

// Reads once. No byte is read at the end of the input.
fn read_once(rt: &HostRuntime, part: &mut [u8]) -> Result<usize, Unread>
    ensures { IfOk result (λ n. n ≤ length part.new) }
{
    let got = rt.stdin().read(part);
    taken_by(got, part)
}

// Reads until the input ends or the buffer is full, and says how many bytes stand at its front.
fn read_input(rt: &HostRuntime, buf: &mut [u8]) -> Result<usize, Unread>
    ensures { IfOk result (λ n. (n ≤ length buf.new) × (n ≡ length (take n buf.new))) }
{
    let mut n: usize = 0;
    while n < buf.len() {
        let more = read_once(rt, &mut buf[n..])?;
        if more == 0 {
            break;
        }
        n += more;
    }
    Ok(n)
}

// Says on standard error what went wrong. Where that can't be written either, nothing is left to say it to.
fn complain(rt: &HostRuntime, words: &[u8]) {
    let _ = rt.stderr().write_all(words);
}

// Prints the output of the input, by way of a lent buffer.
fn print_output(rt: &HostRuntime, input: &[u8], out: &mut [u8])
    requires { 5 * length input.now + 256 ≤ length out.old }
{
    let end = render(input, out);
    if rt.stdout().write_all(&out[..end]).is_err() {
        complain(rt, b"intake: standard output can't be written\n");
    }
}

fn main(rt: HostRuntime) {
    let mut buffer = input_buffer();
    let Ok(n) = read_input(&rt, &mut buffer) else {
        complain(&rt, b"intake: standard input can't be read\n");
        return;
    };
    if n <= SHORT {
        let mut out = large_buffer();
        print_output(&rt, &buffer[..n], &mut out);
        return;
    }
    let mut out = output_buffer();
    print_output(&rt, &buffer[..n], &mut out);
}
