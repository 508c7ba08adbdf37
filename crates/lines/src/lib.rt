// Numbers in decimal, and a line of them, put into a lent buffer.
#![tactic(auto)]

ghost use Rattle.std.specs.Prelude.{◌≡◌, ◌∷◌, ◌+◌, ◌*◌, ◌≤◌, length};
ghost use Rattle.lines.specs.Line.{decimal, space_then, spaced, line};
ghost use Rattle.lines.specs.Contract.{placed, LineFits, Wrote};

const ZERO: u8 = 48;

const SPACE: u8 = 32;

const NEWLINE: u8 = 10;

// Puts the decimal digits of n at the place `at`, and says the place after them.
fn put_number(out: &mut [u8], at: usize, n: u32) -> usize
    requires { at + length (decimal n) ≤ length out.old }
    ensures placed { out.new ≡ placed at (decimal n) out.old }
    ensures next { result ≡ at + length (decimal n) }
{
    if n < 10 {
        out[at] = ZERO + n as u8;
        return at + 1;
    }
    let p = put_number(out, at, n / 10);
    out[p] = ZERO + (n % 10) as u8;
    p + 1
}

// Puts a space and the decimal digits of n at the place `at`, and says the place after them.
fn put_next(out: &mut [u8], at: usize, n: u32) -> usize
    requires { at + length (space_then n) ≤ length out.old }
    ensures placed { out.new ≡ placed at (space_then n) out.old }
    ensures next { result ≡ at + length (space_then n) }
{
    out[at] = SPACE;
    put_number(out, at + 1, n)
}

// Puts each of the bytes, a space in front of each, at the place `at`, and says the place after them.
fn put_each(out: &mut [u8], at: usize, bytes: &[u8]) -> usize
    requires { at + 4 * length bytes.now ≤ length out.old }
    ensures placed { out.new ≡ placed at (spaced bytes.now) out.old }
    ensures next { result ≡ at + length (spaced bytes.now) }
{
    let mut p = at;
    for b in bytes {
        p = put_next(out, p, u32::from(*b));
    }
    p
}

// Puts the line of the list with this number in front of the buffer, and says how many bytes it has.
pub fn put_line(out: &mut [u8], number: u32, answer: u8, count: usize, witness: &[u8]) -> usize
    requires { LineFits number count out.old × (length witness.now ≤ 32) }
    ensures { Wrote (line number (answer ∷ count ∷ witness.now)) out.old out.new result }
{
    let first = put_number(out, 0, number);
    let second = put_next(out, first, answer as u32);
    let third = put_next(out, second, count as u32);
    let end = put_each(out, third, witness);
    out[end] = NEWLINE;
    end + 1
}
