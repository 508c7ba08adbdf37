// Element templates: which bytes are one, and by which number any others are refused. A scan answers by one number: the place after what it
// read, or above FAULT the number of the refusal.
#![tactic(auto)]

ghost use Rattle.std.specs.Prelude.{◌≡◌, Bool, true, List, ℕ, ◌+◌, ◌<◌, ◌≤◌, length, get_or, drop};
ghost use Rattle.format.specs.declared.Family.{Family};
ghost use Rattle.grammar.specs.Leaf.{leaf_head, typed_head};
ghost use Rattle.grammar.specs.FloatLeaf.{float_head};
ghost use Rattle.grammar.specs.Family.{LeafOf};
ghost use Rattle.grammar.specs.Record.{Head, count_fault, group_head, head};
ghost use Rattle.grammar.specs.Reading.{outermost, read_element};
ghost use Rattle.sorts.specs.Sorts.{lower_of, upper_of, leaves_for};
ghost use Rattle.elements.specs.Contract.{Place, group_kind, HeadAt, From, ScannedAll, Ended, Answered};

use floats::{Bounds, bounds_fault, float_at, one_fault};
use format::{
    ANY, ANY_SIZE, BAD_BOUNDS, BAD_COUNT, BAD_KIND, COMPLEMENT, COUNT_SIZE, DEPTH_MOST, DONE,
    FAULT, FLOAT, FLOAT_RANGE, FLOAT_RANGE_SIZE, FLOAT_SIZE, GROUP_MOST, LAST_LEAF, LEAF_OUTSIDE,
    LEFT_OVER, LIST, MISSING, ONE_MORE, RANGE, RANGE_SIZE, SINGLE, SINGLE_SIZE, TEMPLATE_MOST,
    TOO_DEEP, TOO_LONG, TOO_MANY,
};
use integers::int_at;
use leaves::bounds_at;
use sorts::{FLOATS, Sort, WHOLE, reaches};

// The answer that says this refusal.
pub fn refusal(code: u8) -> usize
    ensures { result ≡ 16777215 + code }
{
    FAULT + code as usize
}

// Whether a record of this kind has members: a list or a complement.
fn is_group(kind: u8) -> bool
    ensures { result ≡ group_kind kind }
{
    (kind == LIST) | (kind == COMPLEMENT)
}

// The fault of the record at `at`, whose body is one byte n from lo to hi.
pub fn count_fault(t: &[u8], at: usize, lo: u8, hi: u8) -> u8
    requires { at ≤ length t.now }
    ensures { result ≡ count_fault lo hi (drop at t.now) }
{
    if t.len() - at < COUNT_SIZE {
        return MISSING;
    }
    let n = t[at + 1];
    if n < lo {
        return BAD_COUNT;
    }
    if hi < n {
        return BAD_COUNT;
    }
    DONE
}

// The place after the record of the list or the complement at `at`, or its fault.
fn group_head_end(t: &[u8], at: usize) -> usize
    requires { Place t.now at }
    ensures { (f : Family) (c : Bool) → group_kind (get_or t.now at 0) ≡ true → HeadAt {L = LeafOf f} t.now at (group_head c (drop at t.now)) result }
{
    let code = count_fault(t, at, 1, GROUP_MOST);
    if code != DONE {
        return refusal(code);
    }
    at + COUNT_SIZE
}

// The place after the leaf of the integer family at `at`, or its fault.
fn integer_end(t: &[u8], at: usize) -> usize
    requires { (at < length t.now) × (length t.now < 65536) }
    ensures { HeadAt t.now at (leaf_head (drop at t.now)) result }
{
    let kind = t[at];
    let room = t.len() - at;
    if kind == SINGLE {
        if room < SINGLE_SIZE {
            return refusal(MISSING);
        }
        return at + SINGLE_SIZE;
    }
    if kind == RANGE {
        if room < RANGE_SIZE {
            return refusal(MISSING);
        }
        if int_at(t, at + 5) < int_at(t, at + 1) {
            return refusal(BAD_BOUNDS);
        }
        return at + RANGE_SIZE;
    }
    if kind == ANY {
        return at + ANY_SIZE;
    }
    refusal(BAD_KIND)
}

// The place after the leaf of the float family at `at`, or its fault.
fn float_end(t: &[u8], at: usize) -> usize
    requires { (at < length t.now) × (length t.now < 65536) }
    ensures { HeadAt t.now at (float_head (drop at t.now)) result }
{
    let kind = t[at];
    let room = t.len() - at;
    if kind == FLOAT {
        if room < FLOAT_SIZE {
            return refusal(MISSING);
        }
        let code = one_fault(float_at(t, at + 1));
        if code != DONE {
            return refusal(code);
        }
        return at + FLOAT_SIZE;
    }
    if kind == FLOAT_RANGE {
        if room < FLOAT_RANGE_SIZE {
            return refusal(MISSING);
        }
        let lower = float_at(t, at + 1);
        let upper = float_at(t, at + 9);
        let code = bounds_fault(Bounds { lower, upper });
        if code != DONE {
            return refusal(code);
        }
        return at + FLOAT_RANGE_SIZE;
    }
    if kind == ANY {
        return at + ANY_SIZE;
    }
    refusal(BAD_KIND)
}

// The place after the record of an element template at `at`, or its own fault, where `leaf_end` says that of a leaf.
fn element_head_end<F: Fn(&[u8], usize) -> usize>(t: &[u8], at: usize, leaf_end: F) -> usize
    requires place { Place t.now at }
    requires callable { at < length t.now → F.pre leaf_end t at }
    ensures { (f : Family) (leaves : List ℕ → Head (LeafOf f)) → ((r : ℕ) → F.post leaf_end t.entry at r → HeadAt t.now at (leaves (drop at t.now)) r) → HeadAt t.now at (head leaves (drop at t.now)) result }
{
    if at == t.len() {
        return refusal(MISSING);
    }
    if is_group(t[at]) {
        return group_head_end(t, at);
    }
    leaf_end(t, at)
}

// The same of the integer family.
pub fn integer_head_end(t: &[u8], at: usize) -> usize
    requires { Place t.now at }
    ensures { HeadAt t.now at (head leaf_head (drop at t.now)) result }
{
    element_head_end(t, at, integer_end)
}

// The same of the float family.
fn float_head_end(t: &[u8], at: usize) -> usize
    requires { Place t.now at }
    ensures { HeadAt t.now at (head float_head (drop at t.now)) result }
{
    element_head_end(t, at, float_end)
}

// The place after the record of an element template of integers of a type, or its own fault. What a leaf says is read once more only here.
fn typed_head_end(t: &[u8], at: usize, sort: Sort) -> usize
    requires { Place t.now at }
    ensures { HeadAt t.now at (head (typed_head (lower_of sort) (upper_of sort)) (drop at t.now)) result }
{
    let end = integer_head_end(t, at);
    if FAULT < end {
        return end;
    }
    let kind = t[at];
    if ANY <= kind {
        return end;
    }
    let l = bounds_at(t, at);
    if reaches(sort, l.lower, l.upper) {
        return refusal(LEAF_OUTSIDE);
    }
    end
}

// The place after the record of an element template at `at`, or its own fault, where the leaves are not all the integers.
pub fn other_head_end(t: &[u8], at: usize, sort: Sort) -> usize
    requires { Place t.now at }
    ensures { HeadAt t.now at (head (leaves_for sort) (drop at t.now)) result }
{
    if sort.word == FLOATS {
        return float_head_end(t, at);
    }
    typed_head_end(t, at, sort)
}

// The same, lent the bytes on its own: what is lent to a function that is called stands in memory, and the way of the integers
// keeps the bytes at hand.
fn other_record_end(t: &[u8], at: usize, sort: Sort) -> usize
    requires { Place t.now at }
    ensures { HeadAt t.now at (head (leaves_for sort) (drop at t.now)) result }
{
    other_head_end(t, at, sort)
}

// The place after the element template's record at `at`, or its own fault.
fn head_end(t: &[u8], at: usize, sort: Sort) -> usize
    requires { Place t.now at }
    ensures { HeadAt t.now at (head (leaves_for sort) (drop at t.now)) result }
{
    if sort.word == WHOLE {
        return integer_head_end(t, at);
    }
    other_record_end(t, at, sort)
}

// n element templates after the place and the leaves `from`, with so many depths left. A leaf is read here; what has members is a call, but for the
// last one: its members are simply next, a depth further down.
fn scan_all(t: &[u8], from: usize, n: usize, left: usize, sort: Sort) -> usize
    requires { From t.now from }
    ensures { ScannedAll sort t.now left n from result }
{
    let mut s = from;
    let mut more = n;
    let mut depths = left;
    // No `for`: `more` also goes up, where the last one's members are next.
    while 0 < more {
        let at = s % ONE_MORE;
        let end = head_end(t, at, sort);
        if FAULT < end {
            return end;
        }
        if depths == 0 {
            return refusal(TOO_DEEP);
        }
        if is_group(t[at]) {
            let k = t[at + 1] as usize;
            if more == 1 {
                s += COUNT_SIZE;
                more = k;
                depths -= 1;
            } else {
                s = scan_all(t, s + COUNT_SIZE, k, depths - 1, sort);
                if FAULT < s {
                    return s;
                }
                more -= 1;
            }
        } else {
            if LAST_LEAF < s / ONE_MORE {
                return refusal(TOO_MANY);
            }
            s = s + ONE_MORE + (end - at);
            more -= 1;
        }
    }
    s
}

// The place after the element template at `at`, whose record ends at `end`, or the refusal of what it holds.
pub fn rest_end(t: &[u8], at: usize, end: usize, sort: Sort) -> usize
    requires { Place t.now at × HeadAt t.now at (head (leaves_for sort) (drop at t.now)) end × (end ≤ 16777215) }
    ensures { Ended t.now (outermost (leaves_for sort) (drop at t.now)) result }
{
    if !is_group(t[at]) {
        return end;
    }
    let s = scan_all(t, end, t[at + 1] as usize, DEPTH_MOST - 1, sort);
    if FAULT < s {
        return s;
    }
    s % ONE_MORE
}

// The number for t as one element template by itself.
pub fn scan_element(t: &[u8], sort: Sort) -> u8
    ensures { Answered (read_element (leaves_for sort) t.now) result }
{
    if TEMPLATE_MOST < t.len() {
        return TOO_LONG;
    }
    let head = head_end(t, 0, sort);
    if FAULT < head {
        return (head - FAULT) as u8;
    }
    let end = rest_end(t, 0, head, sort);
    if FAULT < end {
        return (end - FAULT) as u8;
    }
    if end < t.len() {
        return LEFT_OVER;
    }
    DONE
}
