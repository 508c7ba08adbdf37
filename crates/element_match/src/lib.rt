// Which elements of a list match the element template that stands here: those asked about, in one walk over its bytes. A list is lent as integers
// and floats, of which one is empty: the kind of a leaf says of which family it is.
#![tactic(auto)]

ghost use Rattle.std.specs.Prelude.{◌≡◌, Bool, true, false, not, ℕ, ◌<◌, get_or};
ghost use Rattle.std.specs.Float.{nan};
ghost use Rattle.format.specs.declared.Family.{Family};
ghost use Rattle.floats.specs.Leaves.{float_matches};
ghost use Rattle.grammar.specs.Family.{no_element, list_of};
ghost use Rattle.leaves.specs.Leaves.{LeafHere, FloatLeafHere};
ghost use Rattle.masks.specs.Masks.{bit};
ghost use Rattle.element_match.specs.Contract.{Among, Tells, Missed, Asks, AsksOne, Walks, HitsAt, OneHit, WalkTells, mask_in, place_in};

use floats::{Leaf, leaf_hit as leaf_matches};
use format::{ANY, ANY_SIZE, COMPLEMENT, COUNT_SIZE, DEPTH_MOST, LIST};
use integers::within;
use leaves::{bounds_at, float_leaf_at, float_leaf_size};
use masks::{flip, lowest, with, without_lowest};

// ---- what a walk answers, in one number: the elements, and the place after what was walked over
fn said(mask: u32, next: usize) -> u64
    requires { next < 65536 }
    ensures { (mask_in result ≡ mask) × (place_in result ≡ next) }
{
    ((next as u64) << 32) + mask as u64
}

fn mask_in(r: u64) -> u32
    ensures { result ≡ mask_in r }
{
    (r % 0x1_0000_0000) as u32
}

fn place_in(r: u64) -> usize
    ensures { result ≡ place_in r }
{
    (r >> 32) as usize
}

// Of the asked elements those that fail the test.
fn failing<T: Copy, F: Fn(T) -> bool>(elements: &[T], asked: u32, test: F) -> u32
    requires among { Among asked elements.now }
    requires callable { F.IsAlwaysCallable test }
    ensures tested { (j : ℕ) (d : T) → bit asked j ≡ true → F.post test (get_or elements.now j d) (not (bit result j)) }
    ensures others { (j : ℕ) → bit asked j ≡ false → bit result j ≡ false }
{
    let mut rest = asked;
    let mut left = asked;
    // No `for`: this goes from bit to bit of a mask, and counts nothing.
    while left != 0 {
        let e = lowest(left);
        left = without_lowest(left);
        if test(elements[e as usize]) {
            rest = flip(rest, e);
        }
    }
    rest
}

// Of the asked elements those that lie outside the bounds.
fn missed(integers: &[i32], asked: u32, lower: i32, upper: i32) -> u32
    requires { Among asked integers.now }
    ensures { Missed integers.now asked lower upper result }
{
    failing(integers, asked, |x| within(x, lower, upper))
}

// Of the asked elements those that the leaf does not match.
fn missed_floats(floats: &[f64], asked: u32, l: Leaf) -> u32
    requires { Among asked floats.now }
    ensures { Tells asked (λ j. not (float_matches l (get_or floats.now j nan))) result }
{
    failing(floats, asked, |x| leaf_matches(l, x))
}

// Of the asked elements all but those.
fn others(asked: u32, those: u32) -> u32
    ensures { (test : ℕ → Bool) → Tells asked (λ j. not (test j)) those → Tells asked test result }
{
    asked ^ those
}

// Of the asked elements those that none of the n element templates at `at` matches. Who is matched is not asked about again. A leaf is
// read before any recursive call, which is faster. A list inside needs no call: none of its members is none of them among the others, so they
// are simply next.
#[cycle(any_of_none_of)]
fn none_of(
    t: &[u8],
    at: usize,
    n: usize,
    integers: &[i32],
    floats: &[f64],
    asked: u32,
    left: usize,
) -> u64
    requires { Walks t.now at n left integers.now floats.now asked }
    ensures { (f : Family) → WalkTells f true t.now at n left (list_of f integers.now floats.now) asked (mask_in result) (place_in result) }
{
    let mut rest = asked;
    let mut p = at;
    let mut more = n;
    // No `for`: `more` also goes up, by the members of a list.
    while 0 < more {
        let kind = t[p];
        if kind < LIST {
            if kind == ANY {
                rest = 0;
                p += ANY_SIZE;
                more -= 1;
            } else {
                let b = bounds_at(t, p);
                rest = missed(integers, rest, b.lower, b.upper);
                p = b.next;
                more -= 1;
            }
        } else if kind == LIST {
            more = more - 1 + t[p + 1] as usize;
            p += COUNT_SIZE;
        } else if COMPLEMENT < kind {
            rest = missed_floats(floats, rest, float_leaf_at(t, p));
            p += float_leaf_size(kind);
            more -= 1;
        } else {
            let r = any_of(
                t,
                p + COUNT_SIZE,
                t[p + 1] as usize,
                integers,
                floats,
                rest,
                left - 1,
            );
            rest = mask_in(r);
            p = place_in(r);
            more -= 1;
        }
    }
    said(rest, p)
}

// Of the asked elements those that at least one of the n element templates at `at` matches.
#[cycle(any_of_none_of)]
fn any_of(
    t: &[u8],
    at: usize,
    n: usize,
    integers: &[i32],
    floats: &[f64],
    asked: u32,
    left: usize,
) -> u64
    requires { Walks t.now at n left integers.now floats.now asked }
    ensures { (f : Family) → WalkTells f false t.now at n left (list_of f integers.now floats.now) asked (mask_in result) (place_in result) }
{
    let r = none_of(t, at, n, integers, floats, asked, left);
    said(others(asked, mask_in(r)), place_in(r))
}

// Of the asked elements those that the element template at `at` matches.
pub fn hits(t: &[u8], at: usize, integers: &[i32], floats: &[f64], asked: u32) -> u32
    requires { Asks t.now at integers.now floats.now asked }
    ensures { (f : Family) → HitsAt f t.now at (list_of f integers.now floats.now) asked result }
{
    let kind = t[at];
    if kind == ANY {
        return asked;
    }
    if kind < ANY {
        let b = bounds_at(t, at);
        return others(asked, missed(integers, asked, b.lower, b.upper));
    }
    if kind == LIST {
        return mask_in(any_of(
            t,
            at + COUNT_SIZE,
            t[at + 1] as usize,
            integers,
            floats,
            asked,
            DEPTH_MOST - 1,
        ));
    }
    if COMPLEMENT < kind {
        return others(asked, missed_floats(floats, asked, float_leaf_at(t, at)));
    }
    mask_in(none_of(
        t,
        at + COUNT_SIZE,
        t[at + 1] as usize,
        integers,
        floats,
        asked,
        DEPTH_MOST - 1,
    ))
}

// Whether the element template at `at` matches the element e.
pub fn hit(t: &[u8], at: usize, integers: &[i32], floats: &[f64], e: usize) -> bool
    requires { AsksOne t.now at integers.now floats.now e }
    ensures { (f : Family) → OneHit f t.now at (get_or (list_of f integers.now floats.now) e (no_element f)) result }
{
    hits(t, at, integers, floats, with(0, e as u8)) != 0
}

// Whether the leaf of the integer family at `at` matches x. It lends no list: whoever tests one element after another asks here first, where
// there is a leaf.
pub fn leaf_hit(t: &[u8], at: usize, x: i32) -> bool
    requires { LeafHere t.now at }
    ensures { OneHit Family.Integers t.now at x result }
{
    let b = bounds_at(t, at);
    within(x, b.lower, b.upper)
}

// Whether the 06 or 07 at `at` matches x.
pub fn float_hit(t: &[u8], at: usize, x: f64) -> bool
    requires { FloatLeafHere t.now at }
    ensures { OneHit Family.Floats t.now at x result }
{
    leaf_matches(float_leaf_at(t, at), x)
}
