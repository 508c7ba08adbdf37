// The ranges of the integers that an element template matches, gathered in two lent arrays. The walk goes on from one number, and answers by one: the
// place after what it read and, ONE_MORE for each, the ranges that stand in the arrays.
ghost use Rattle.std.specs.Prelude.{[], ◌<◌, length};
ghost use Rattle.ranges.specs.Shown.{view, Became};
ghost use Rattle.ranges.specs.Spans.{Proper, join_all, gaps as gaps_of};
ghost use Rattle.normal.specs.Contract.{HereFrom, MembersFrom, GatheredHere, GatheredAll};

use format::{COUNT_SIZE, LIST, ONE_MORE};
use leaves::bounds_at;
use ranges::gaps;
use sweeping::swept;

// What the first n ranges, in any order, leave out, in their place.
fn left_out(lo: &mut [i32], hi: &mut [i32], n: usize) -> usize
    requires { (n < length lo.old) × (n < length hi.old) × Proper (view n lo.old hi.old) }
    ensures { Became lo.old hi.old lo.new hi.new result (gaps_of (join_all (view n lo.old hi.old) [])) }
{
    let m = swept(lo, hi, n);
    gaps(lo, hi, m)
}

// The ranges of the n element templates after `from`, in any order, after those that stand there; `left` depths are left. A leaf is read
// here; what has members is a call.
#[cycle(any_of_set_of)]
fn any_of(t: &[u8], from: usize, n: usize, left: usize, lo: &mut [i32], hi: &mut [i32]) -> usize
    requires { MembersFrom t.now from n left lo.old hi.old }
    ensures { GatheredAll t.now from n left lo.old hi.old lo.new hi.new result }
{
    let mut s = from;
    for _ in 0..n {
        let p = s % ONE_MORE;
        let kind = t[p];
        if kind < LIST {
            let l = bounds_at(t, p);
            let a = l.lower;
            let b = l.upper;
            let w = s / ONE_MORE;
            lo[w] = a;
            hi[w] = b;
            s = (w + 1) * ONE_MORE + l.next;
        } else {
            s = set_of(t, s, left, lo, hi);
        }
    }
    s
}

// The same of the list or the complement after `from`. The members of a list are gathered; those of a complement are swept in their place,
// and turned to the gaps between them.
#[cycle(any_of_set_of)]
pub fn set_of(t: &[u8], from: usize, left: usize, lo: &mut [i32], hi: &mut [i32]) -> usize
    requires { HereFrom t.now from left lo.old hi.old }
    ensures { GatheredHere t.now from left lo.old hi.old lo.new hi.new result }
{
    let at = from % ONE_MORE;
    let r = any_of(t, from + COUNT_SIZE, t[at + 1] as usize, left - 1, lo, hi);
    let kind = t[at];
    if kind == LIST {
        return r;
    }
    let n = from / ONE_MORE;
    let g = left_out(&mut lo[n..], &mut hi[n..], r / ONE_MORE - n);
    (n + g) * ONE_MORE + r % ONE_MORE
}
