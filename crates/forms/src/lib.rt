// The bytes of a normal form. Each record writer is lent the part of the output from the current place on.
#![tactic(auto)]

ghost use Rattle.std.specs.Prelude.{◌≡◌, ◌∷◌, ◌++◌, ◌+◌, ◌<◌, ◌≤◌, length, drop};
ghost use Rattle.integers.specs.Integer.{int_bytes};
ghost use Rattle.ranges.specs.Spans.{span};
ghost use Rattle.ranges.specs.Shown.{view, Few};
ghost use Rattle.forms.specs.Form.{record_of, records, matched_form, unmatched_form, record_length, records_length, matched_length, unmatched_length, side_form, side_length};

use format::{ANY, ANY_SIZE, COMPLEMENT, COUNT_SIZE, LIST, RANGE, RANGE_SIZE, SINGLE, SINGLE_SIZE};
use integers::{put_int, same};

// The record of one integer, at the front of `out`.
fn put_single(out: &mut [u8], x: i32)
    requires { 5 ≤ length out.old }
    ensures { out.new ≡ 0x01 ∷ (int_bytes x ++ drop 5 out.old) }
{
    out[0] = SINGLE;
    put_int(&mut out[1..], x);
}

// The record of a range of two integers or more, at the front of `out`.
fn put_range(out: &mut [u8], lower: i32, upper: i32)
    requires { 9 ≤ length out.old }
    ensures { out.new ≡ 0x02 ∷ (int_bytes lower ++ (int_bytes upper ++ drop 9 out.old)) }
{
    out[0] = RANGE;
    put_int(&mut out[1..], lower);
    put_int(&mut out[5..], upper);
}

// How many bytes the record of the range has.
fn record_length(lower: i32, upper: i32) -> usize
    ensures { result ≡ record_length (span lower upper) }
{
    if same(lower, upper) {
        SINGLE_SIZE
    } else {
        RANGE_SIZE
    }
}

// The record of the range, at the front of `out`.
fn put_record(out: &mut [u8], lower: i32, upper: i32)
    requires { record_length (span lower upper) ≤ length out.old }
    ensures { out.new ≡ record_of (span lower upper) ++ drop (record_length (span lower upper)) out.old }
{
    if same(lower, upper) {
        put_single(out, lower);
    } else {
        put_range(out, lower, upper);
    }
}

// How many bytes the records of the first n ranges have.
fn records_length(lo: &[i32], hi: &[i32], n: usize) -> usize
    requires { Few n lo.now hi.now }
    ensures { result ≡ records_length (view n lo.now hi.now) }
{
    let mut length: usize = 0;
    for k in 0..n {
        let a = lo[k];
        let b = hi[k];
        length += record_length(a, b);
    }
    length
}

// The records of the first n ranges, at the front of `out`.
fn put_records(out: &mut [u8], lo: &[i32], hi: &[i32], n: usize)
    requires { Few n lo.now hi.now × (records_length (view n lo.now hi.now) ≤ length out.old) }
    ensures { out.new ≡ records (view n lo.now hi.now) ++ drop (records_length (view n lo.now hi.now)) out.old }
{
    let mut p: usize = 0;
    for k in 0..n {
        let a = lo[k];
        let b = hi[k];
        put_record(&mut out[p..], a, b);
        p += record_length(a, b);
    }
}

// A list or a complement of n ranges, at the front of `out`.
fn put_group(out: &mut [u8], kind: u8, lo: &[i32], hi: &[i32], n: usize)
    requires { Few n lo.now hi.now × (2 + records_length (view n lo.now hi.now) ≤ length out.old) }
    ensures { out.new ≡ kind ∷ n ∷ (records (view n lo.now hi.now) ++ drop (2 + records_length (view n lo.now hi.now)) out.old) }
{
    out[0] = kind;
    out[1] = n as u8;
    put_records(&mut out[COUNT_SIZE..], lo, hi, n);
}

// How many bytes the form has that is written from the integers matched.
fn matched_length(lo: &[i32], hi: &[i32], n: usize) -> usize
    requires { Few n lo.now hi.now }
    ensures { result ≡ matched_length (view n lo.now hi.now) }
{
    if n == 0 {
        return COUNT_SIZE + ANY_SIZE;
    }
    if n == 1 {
        let a = lo[0];
        let b = hi[0];
        return record_length(a, b);
    }
    COUNT_SIZE + records_length(lo, hi, n)
}

// How many bytes the form has that is written from the integers not matched.
fn unmatched_length(lo: &[i32], hi: &[i32], n: usize) -> usize
    requires { Few n lo.now hi.now }
    ensures { result ≡ unmatched_length (view n lo.now hi.now) }
{
    if n == 0 {
        return ANY_SIZE;
    }
    COUNT_SIZE + records_length(lo, hi, n)
}

// The form of no integer at all, at the front of `out`: a complement of any value.
fn put_nothing(out: &mut [u8])
    requires { 3 ≤ length out.old }
    ensures { out.new ≡ 0x05 ∷ 0x01 ∷ 0x03 ∷ drop 3 out.old }
{
    out[0] = COMPLEMENT;
    out[1] = 1;
    out[2] = ANY;
}

// The form from the integers matched, at the front of `out`.
fn put_matched(out: &mut [u8], lo: &[i32], hi: &[i32], n: usize)
    requires { Few n lo.now hi.now × (matched_length (view n lo.now hi.now) ≤ length out.old) }
    ensures { out.new ≡ matched_form (view n lo.now hi.now) ++ drop (matched_length (view n lo.now hi.now)) out.old }
{
    if n == 0 {
        put_nothing(out);
    } else if n == 1 {
        let a = lo[0];
        let b = hi[0];
        put_record(out, a, b);
    } else {
        put_group(out, LIST, lo, hi, n);
    }
}

// The form from the integers not matched, at the front of `out`.
fn put_unmatched(out: &mut [u8], lo: &[i32], hi: &[i32], n: usize)
    requires { Few n lo.now hi.now × (unmatched_length (view n lo.now hi.now) ≤ length out.old) }
    ensures { out.new ≡ unmatched_form (view n lo.now hi.now) ++ drop (unmatched_length (view n lo.now hi.now)) out.old }
{
    if n == 0 {
        out[0] = ANY;
    } else {
        put_group(out, COMPLEMENT, lo, hi, n);
    }
}

// How many bytes the form has that is written from n ranges: from the integers not matched, or from those matched.
pub fn form_length(outside: bool, lo: &[i32], hi: &[i32], n: usize) -> usize
    requires { Few n lo.now hi.now }
    ensures { result ≡ side_length outside (view n lo.now hi.now) }
{
    if outside {
        unmatched_length(lo, hi, n)
    } else {
        matched_length(lo, hi, n)
    }
}

// The form that is written from n ranges, at the front of `out`.
pub fn put_form(out: &mut [u8], outside: bool, lo: &[i32], hi: &[i32], n: usize)
    requires { Few n lo.now hi.now × (side_length outside (view n lo.now hi.now) ≤ length out.old) }
    ensures { out.new ≡ side_form outside (view n lo.now hi.now) ++ drop (side_length outside (view n lo.now hi.now)) out.old }
{
    if outside {
        put_unmatched(out, lo, hi, n);
    } else {
        put_matched(out, lo, hi, n);
    }
}
