// Normal forms, read by their bytes: the ranges that a form is written from, or that the bytes are no normal form. Nothing but a normal form is
// read, so there is no scan, no walk and no sweep.
#![tactic(auto)]

ghost use Rattle.std.specs.Prelude.{◌≤◌, ◌<◌, ◌≡◌, true, false, cond, pos, ◌+ℤ◌, length, get_or, MatchOption};
ghost use Rattle.std.specs.Int.Signed.{lt_z};
ghost use Rattle.form_reader.specs.FormRead.{RecordRead, RangesRead, FormAt, FormRead};

use format::{
    ANY, ANY_SIZE, COMPLEMENT, COUNT_SIZE, GROUP_MOST, LIST, RANGE, RANGE_SIZE, SINGLE, SINGLE_SIZE,
};
use integers::int_at;

// A range whose record was read, and the place after it.
#[derive(Drop)]
struct Record {
    lower: i32,
    upper: i32,
    next: usize,
}

// A normal form that was read: the side that it is written from, and how many ranges the arrays have.
#[derive(Clone, Copy)]
pub struct Form {
    pub outside: bool,
    pub ranges: usize,
}

// The record of a range at the place p, if one stands there. A range of one integer is a 01 only.
fn record_at(t: &[u8], p: usize) -> Option<Record>
    requires { p ≤ length t.now }
    ensures { MatchOption result (RecordRead t.now p false (pos 0) (pos 0) 0) (λ r. RecordRead t.now p true r.lower r.upper r.next) }
{
    let left = t.len() - p;
    if left < SINGLE_SIZE {
        return None;
    }
    let kind = t[p];
    if kind == SINGLE {
        let x = int_at(t, p + 1);
        return Some(Record {
            lower: x,
            upper: x,
            next: p + SINGLE_SIZE,
        });
    }
    if (kind != RANGE) | (left < RANGE_SIZE) {
        return None;
    }
    let a = int_at(t, p + 1);
    let b = int_at(t, p + 5);
    if b <= a {
        return None;
    }
    Some(Record {
        lower: a,
        upper: b,
        next: p + RANGE_SIZE,
    })
}

// Where the range after one that ends with b must begin above. After the upper bound of the type none can follow, and there may be no integer.
fn bound_after(b: i32, upper: i32) -> i32
    ensures { result ≡ cond (lt_z b upper) (b +ℤ pos 1) b }
{
    if b < upper { b + 1 } else { b }
}

// The records of n ranges from `at` to the end of the bytes, ascending above `lower`, none touching the next, and none past `upper`.
fn ranges_at(
    t: &[u8],
    at: usize,
    n: usize,
    lower: i32,
    upper: i32,
    lo: &mut [i32],
    hi: &mut [i32],
) -> bool
    requires { (at ≤ length t.now) × (n ≤ length lo.old) × (n ≤ length hi.old) }
    ensures { RangesRead t.now at n lower upper lo.old hi.old lo.new hi.new result }
{
    let mut p = at;
    let mut last = lower;
    for k in 0..n {
        let Some(r) = record_at(t, p) else {
            return false;
        };
        let a = r.lower;
        let b = r.upper;
        if (a <= last) | (upper < b) {
            return false;
        }
        lo[k] = a;
        hi[k] = b;
        p = r.next;
        last = bound_after(b, upper);
    }
    p == t.len()
}

// The form that is written from n ranges whose records stand from `at` on.
fn form_at(
    t: &[u8],
    at: usize,
    outside: bool,
    n: usize,
    lower: i32,
    upper: i32,
    lo: &mut [i32],
    hi: &mut [i32],
) -> Option<Form>
    requires { (at ≤ length t.now) × (n ≤ length lo.old) × (n ≤ length hi.old) }
    ensures { MatchOption result (FormAt t.now at outside n lower upper lo.old hi.old lo.new hi.new false false 0) (λ f. FormAt t.now at outside n lower upper lo.old hi.old lo.new hi.new true f.outside f.ranges) }
{
    if ranges_at(t, at, n, lower, upper, lo, hi) {
        Some(Form { outside, ranges: n })
    } else {
        None
    }
}

// A form that begins with 04 or 05, read by its count; `t` is as long as the shortest, 05 01 03.
fn read_group(t: &[u8], lower: i32, upper: i32, lo: &mut [i32], hi: &mut [i32]) -> Option<Form>
    requires { (3 ≤ length t.now) × (3 < get_or t.now 0 0) × (64 ≤ length lo.old) × (64 ≤ length hi.old) }
    ensures { MatchOption result (FormRead lower upper t.now lo.old hi.old lo.new hi.new false false 0) (λ f. FormRead lower upper t.now lo.old hi.old lo.new hi.new true f.outside f.ranges) }
{
    let kind = t[0];
    let n = t[1];
    let first = t[2];
    if GROUP_MOST < n {
        return None;
    }
    if kind == LIST {
        if n < 2 {
            return None;
        }
        return form_at(t, COUNT_SIZE, false, n as usize, lower, upper, lo, hi);
    }
    if (kind != COMPLEMENT) | (n < 1) {
        return None;
    }
    if first == ANY {
        let nothing = (n == 1) & (t.len() == COUNT_SIZE + ANY_SIZE);
        return nothing.then_some(Form {
            outside: false,
            ranges: 0,
        });
    }
    form_at(t, COUNT_SIZE, true, n as usize, lower, upper, lo, hi)
}

// The ranges that the bytes, as a normal form under the type from `lower` to `upper`, are written from; none where they are no normal form.
pub fn read_form(t: &[u8], lower: i32, upper: i32, lo: &mut [i32], hi: &mut [i32]) -> Option<Form>
    requires { (64 ≤ length lo.old) × (64 ≤ length hi.old) }
    ensures { MatchOption result (FormRead lower upper t.now lo.old hi.old lo.new hi.new false false 0) (λ f. FormRead lower upper t.now lo.old hi.old lo.new hi.new true f.outside f.ranges) }
{
    if t.len() < ANY_SIZE {
        return None;
    }
    let kind = t[0];
    if kind == ANY {
        let everything = t.len() == ANY_SIZE;
        return everything.then_some(Form {
            outside: true,
            ranges: 0,
        });
    }
    if kind < LIST {
        return form_at(t, 0, false, 1, lower, upper, lo, hi);
    }
    if t.len() < COUNT_SIZE + ANY_SIZE {
        return None;
    }
    read_group(t, lower, upper, lo, hi)
}
