// The records of the input: the fault of one, the place after the template, and each list.
#![tactic(auto)]

ghost use Rattle.std.specs.Prelude.{◌≡◌, ◌<◌, ◌≤◌, length, drop, MatchResult};
ghost use Rattle.stream.specs.Input.{record_fault, integers, list_fault, list_here, after_template};
ghost use Rattle.stream.specs.Contract.{zeros, Listed};

use format::{
    BAD_KIND, COUNT_SIZE, DONE, LENGTH_MOST, LIST_TOO_LONG, MISSING, SINGLE, SINGLE_SIZE,
    TEMPLATE_SIZE, VALUES,
};
use integers::int_at;

// The fault of the record of this kind at `at`, whose body ends `size` bytes from there.
pub fn record_fault(s: &[u8], at: usize, kind: u8, size: usize) -> u8
    requires { at ≤ length s.now }
    ensures { result ≡ record_fault kind size (drop at s.now) }
{
    if at == s.len() {
        return MISSING;
    }
    if s[at] != kind {
        return BAD_KIND;
    }
    if s.len() - at < size {
        return MISSING;
    }
    DONE
}

// The place after the template.
pub fn template_end(input: &[u8]) -> usize
    requires { 3 ≤ length input.now }
    ensures { result ≡ after_template input.now }
{
    TEMPLATE_SIZE + (input[1] as usize + input[2] as usize * 256)
}

// A list that was read: how many integers it has; the place after it; the integers, in front. All else is 0.
#[derive(Drop)]
pub struct List {
    pub n: usize,
    pub next: usize,
    pub xs: [i32; 32],
}

// n records 01 at `at`, or the fault of one.
fn read_integers(s: &[u8], at: usize, n: usize) -> Result<List, u8>
    requires { (at ≤ length s.now) × (n ≤ 32) }
    ensures { MatchResult result (λ l. Listed s.now (integers n (drop at s.now)) 0 l.n l.next l.xs) (λ code. (0 < code) × Listed s.now (integers n (drop at s.now)) code 0 0 (zeros 32)) }
{
    let mut xs = [0i32; 32];
    let mut p = at;
    for i in 0..n {
        let code = record_fault(s, p, SINGLE, SINGLE_SIZE);
        if code != DONE {
            return Err(code);
        }
        let x = int_at(s, p + 1);
        xs[i] = x;
        p += SINGLE_SIZE;
    }
    Ok(List { n, next: p, xs })
}

// The fault of the record 40 at `at`.
fn list_fault(s: &[u8], at: usize) -> u8
    requires { at ≤ length s.now }
    ensures { result ≡ list_fault (drop at s.now) }
{
    let code = record_fault(s, at, VALUES, COUNT_SIZE);
    if code != DONE {
        return code;
    }
    if LENGTH_MOST < s[at + 1] {
        return LIST_TOO_LONG;
    }
    DONE
}

// The list at `at`, or its fault.
pub fn read_list(s: &[u8], at: usize) -> Result<List, u8>
    requires { at ≤ length s.now }
    ensures { MatchResult result (λ l. Listed s.now (list_here (drop at s.now)) 0 l.n l.next l.xs) (λ code. (0 < code) × Listed s.now (list_here (drop at s.now)) code 0 0 (zeros 32)) }
{
    let code = list_fault(s, at);
    if code != DONE {
        return Err(code);
    }
    read_integers(s, at + COUNT_SIZE, s[at + 1] as usize)
}
