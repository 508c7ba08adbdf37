// The places that the blocks so far reach in an offered list. Only those are gone over.
ghost use Rattle.std.specs.Prelude.{Bool, true, ◌≡◌, List, [], ◌∷◌, ◌++◌, ℕ, ◌+◌, ◌≤◌, ◌<◌, min, length};
ghost use Rattle.masks.specs.Masks.{bit};
ghost use Rattle.blocks.specs.declared.Block.{Block as BlockOf};
ghost use Rattle.blocks.specs.Pieces.{Passing};
ghost use Rattle.judging.specs.Reach.{any_pair, SparesOf, Reached, Fresh, Group, Whole, Marked, Ends, IsOne, OneOn, Along, Extended};

use blocks::{Block, is_one};
use format::SPARE;
use masks::{has, lesser, span, with, with_place};
use place_masks::{in_both, in_either, left_out, lowest_place, moved_up};

// Whether x is a member of the block, and is not among the members yet.
fn fresh(b: Block, members: u32, x: u8) -> bool
    requires { b.first + b.k ≤ 32 }
    ensures { (e : ℕ) → Passing (Fresh any_pair b members e x) result }
{
    if x < b.first {
        return false;
    }
    if b.first + b.k <= x {
        return false;
    }
    !has(members, x)
}

// The members of b.
fn members_of(b: Block) -> u32
    requires { b.first + b.k ≤ 32 }
    ensures { Group b result }
{
    span(b.first, b.first + b.k)
}

// The last place of a list of n elements at which a piece of b that begins at `from` may end.
fn last_end(b: Block, from: usize, n: u8) -> usize
    requires { (from ≤ n) × (n ≤ 32) }
    ensures { result ≡ min (from + b.k + b.max) n }
{
    let most = from + b.k as usize + b.max as usize;
    lesser(most, n as usize)
}

// The ends, with `to` where the piece from .. to - 1, in which these members stand, has all members of b and no fewer elements than b asks.
fn mark(b: Block, all: u32, members: u32, from: usize, to: usize, ends: u64) -> u64
    requires { (from ≤ to) × (to ≤ 32) }
    ensures { Marked (Whole b all members from to) ends to result }
{
    let shortest = b.k as usize + b.min as usize;
    if members != all {
        return ends;
    }
    if to - from < shortest {
        return ends;
    }
    with_place(ends, to)
}

// The ends, with each place at which a piece of b that begins at `from` ends: one walk, as far as the bytes are right.
fn piece_ends(b: Block, all: u32, w: &[u8], from: usize, ends: u64) -> u64
    requires { (b.first + b.k ≤ 32) × Group b all × (from ≤ length w.now) × (length w.now ≤ 32) }
    ensures { Ends any_pair b from (length w.now + 1) w.now ends result }
{
    let furthest = last_end(b, from, w.len() as u8);
    let mut members: u32 = 0;
    let mut found = mark(b, all, members, from, from, ends);
    for to in from..furthest {
        let x = w[to];
        if x != SPARE {
            if !fresh(b, members, x) {
                return found;
            }
            members = with(members, x);
        }
        found = mark(b, all, members, from, to + 1, found);
    }
    found
}

// The ends, with the place after `from` where m stands there: what one member and no spare element take.
fn one_end(m: u8, w: &[u8], from: usize, ends: u64) -> u64
    requires { (m < 32) × (from ≤ length w.now) × (length w.now ≤ 32) }
    ensures { (b : BlockOf) → IsOne m b → Ends any_pair b from (length w.now + 1) w.now ends result }
{
    if from < w.len() {
        let x = w[from];
        if x == m {
            return with_place(ends, from + 1);
        }
    }
    ends
}

// The places that lie one spare element after one of these.
fn one_on(places: u64, spares: u64) -> u64
    ensures { OneOn places spares result }
{
    moved_up(in_both(places, spares), 1)
}

// The places that least to most spare elements reach from one of these. Where one more reaches no other place, no more is tried.
fn along_spares(reach: u64, spares: u64, least: u8, most: u8, w: &[u8]) -> u64
    requires { SparesOf w.now (length w.now) spares × (length w.now ≤ 32) }
    ensures { Along w.now reach least most result }
{
    if most < least {
        return 0;
    }
    let mut r = reach;
    for _ in 0..least {
        r = one_on(r, spares);
    }
    for _ in least..most {
        let more = in_either(r, one_on(r, spares));
        if more == r {
            return r;
        }
        r = more;
    }
    r
}

// The places that are reached with one block more that has members.
fn extend_by_members(b: Block, reach: u64, w: &[u8]) -> u64
    requires { (b.first + b.k ≤ 32) × (0 < b.k) × (length w.now ≤ 32) × ((p : ℕ) → bit reach p ≡ true → p ≤ length w.now) }
    ensures { Extended any_pair b reach w.now result }
{
    let all = members_of(b);
    let one = is_one(b);
    let mut next: u64 = 0;
    let mut left = reach;
    while left != 0 {
        let from = lowest_place(left);
        left = left_out(left, with_place(0, from));
        next = if one {
            one_end(b.first, w, from, next)
        } else {
            piece_ends(b, all, w, from, next)
        };
    }
    next
}

// The places that are reached with one block more.
pub fn extend(b: Block, reach: u64, spares: u64, w: &[u8]) -> u64
    requires { (b.first + b.k ≤ 32) × (length w.now ≤ 32) × SparesOf w.now (length w.now) spares × ((p : ℕ) → bit reach p ≡ true → p ≤ length w.now) }
    ensures { (bs : List BlockOf) → Reached any_pair bs w.now reach → Reached any_pair (bs ++ (b ∷ [])) w.now result }
{
    if b.k == 0 {
        return along_spares(reach, spares, b.min, b.max, w);
    }
    extend_by_members(b, reach, w)
}

// With no blocks the place 0 is reached, and no other.
pub fn start() -> u64
    ensures { (may : ℕ → ℕ → Bool) (w : List ℕ) → Reached may [] w result }
{
    with_place(0, 0)
}
