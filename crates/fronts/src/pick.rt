// The first of the lists that a group takes from one of several places.
ghost use Rattle.std.specs.Prelude.{◌≡◌, ◌+◌, ◌≤◌, ◌<◌, length};
ghost use Rattle.masks.specs.Masks.{bit};
ghost use Rattle.facts.specs.Counting.{count};
ghost use Rattle.byte_order.specs.ByteOrder.{earlier};
ghost use Rattle.rows.specs.Rows.{may};
ghost use Rattle.places.specs.Ways.{Low};
ghost use Rattle.fronts.specs.Fronts.{Leading};
ghost use Rattle.fronts.specs.Picks.{FirstMember, Picking, Tried};

use assign::first_assignment;
use blocks::Block;
use format::SPARE;
use place_masks::{from_on, highest_place, lowest_place, up_to};

// The end up to which the first list so far was found, and the places that are left.
#[derive(Drop)]
pub struct Pick {
    pub to: usize,
    pub rest: u64,
}

// Whether a comes before b in byte order.
fn comes_before(a: &[u8; 32], b: &[u8; 32]) -> bool
    requires { (length a.now ≡ 32) × (length b.now ≡ 32) }
    ensures { result ≡ earlier a.now b.now }
{
    for e in 0..32 {
        let x = a[e];
        let y = b[e];
        if x != y {
            return x < y;
        }
    }
    false
}

// The place of the first member in the piece from .. to - 1.
pub fn first_member(w: &[u8; 32], from: usize, to: usize) -> usize
    requires { (from ≤ to) × (to ≤ 32) }
    ensures { FirstMember w.now from to result }
{
    for p in from..to {
        if w[p] != SPARE {
            return p;
        }
    }
    to
}

// The first list from the least of the places, to the furthest end: it is no later than any to a nearer end. Lists that begin after its first
// member come later. The end 0 says that there is none from there.
pub fn start(rows: &[u32; 32], b: Block, places: u64, ends: u64, best: &mut [u8; 32]) -> Pick
    requires { (b.first + b.k ≤ 32) × (0 < b.k) × Low ends 32 × (0 < places) }
    ensures { Tried (may rows.now) b ends places best.new result.to result.rest }
{
    let p = lowest_place(places);
    let least = b.k as usize + b.min as usize;
    let most = b.k as usize + b.max as usize;
    let near = up_to(from_on(ends, p + least), p + most);
    if near == 0 {
        return Pick { to: 0, rest: 0 };
    }
    let t = highest_place(near);
    let Some(w) = first_assignment(rows, b.first, b.k, p as u8, t as u8) else {
        return Pick { to: 0, rest: 0 };
    };
    *best = w;
    let head = first_member(best, p, t);
    Pick {
        to: t,
        rest: up_to(from_on(places, p + 1), head),
    }
}

// The same with the next of the places that are left. One whose furthest end is no further than before has nothing sooner.
fn next(rows: &[u32; 32], b: Block, places: u64, ends: u64, s: Pick, best: &mut [u8; 32]) -> Pick
    requires { (b.first + b.k ≤ 32) × (0 < b.k) × Low ends 32 × Leading (may rows.now) b ends places × (0 < s.rest) × Picking (may rows.now) b ends places best.old s.to s.rest }
    ensures { Picking (may rows.now) b ends places best.new result.to result.rest × (count (bit result.rest) 64 < count (bit s.rest) 64) }
{
    let p = lowest_place(s.rest);
    let rest = from_on(s.rest, p + 1);
    let most = b.k as usize + b.max as usize;
    let t = highest_place(up_to(ends, p + most));
    if t <= s.to {
        return Pick { to: s.to, rest };
    }
    let w = first_assignment(rows, b.first, b.k, p as u8, t as u8).unwrap();
    if !comes_before(&w, best) {
        return Pick { to: t, rest };
    }
    *best = w;
    let head = first_member(best, p, t);
    Pick {
        to: t,
        rest: up_to(rest, head),
    }
}

// The first list that b takes from one of the places to one of the ends, and the end up to which it was found.
pub fn first_piece(rows: &[u32; 32], b: Block, places: u64, ends: u64, best: &mut [u8; 32]) -> usize
    requires { (b.first + b.k ≤ 32) × (0 < b.k) × Low ends 32 × Leading (may rows.now) b ends places }
    ensures { Picking (may rows.now) b ends places best.new result 0 }
{
    let mut s = start(rows, b, places, ends, best);
    while s.rest != 0 {
        s = next(rows, b, places, ends, s, best);
    }
    s.to
}
