// The items of a set of, permutation, superset or subset, with the places of their members and their block.
ghost use Rattle.std.specs.Prelude.{◌≡◌, ◌+◌, ◌≤◌, length, drop, take};
ghost use Rattle.sorts.specs.Sorts.{whole, family_of, leaves_for};
ghost use Rattle.grammar.specs.Record.{head};
ghost use Rattle.grammar.specs.Template.{no_star};
ghost use Rattle.grammar.specs.Whole.{star_here, member, members};
ghost use Rattle.elements.specs.Contract.{fault_in, Place, HeadAt, Noted};
ghost use Rattle.items.specs.Notes.{StarNotes, MemberNotes, Says, group_block, GroupNotes};

use crate::record::{bounds_fault, kind_at};
use blocks::{Block, number_of};
use elements::{integer_head_end, other_head_end, refusal, rest_end};
use format::{BOUNDS_SIZE, DONE, FAULT, LAST_MEMBER, STARS, TOO_MANY};
use sorts::{Sort, WHOLE};

// The place after the 20 at `at`, or its fault; `seen`: its set of or permutation has one already.
pub fn star_end(t: &[u8], at: usize, seen: bool) -> usize
    requires { Place t.now at }
    ensures { Noted (StarNotes t.now at result) t.now (star_here seen (drop at t.now)) (fault_in result) result }
{
    let code = bounds_fault(t, at);
    if code != DONE {
        return refusal(code);
    }
    if seen {
        return refusal(TOO_MANY);
    }
    at + BOUNDS_SIZE
}

// The place after the element template that stands as an item at `at`, whose record ends at `end`, with m members before it, or its refusal. Its
// place is noted; those of the members before it stay.
fn numbered_end(
    t: &[u8],
    at: usize,
    end: usize,
    m: usize,
    sort: Sort,
    places: &mut [u16; 32],
) -> usize
    requires { Place t.now at × HeadAt t.now at (head (leaves_for sort) (drop at t.now)) end × (length places.old ≡ 32) }
    ensures { Noted (MemberNotes (family_of sort) t.now m places.old places.new) t.now (member (leaves_for sort) m (drop at t.now)) (fault_in result) result × (length places.new ≡ 32) × (take m places.new ≡ take m places.old) }
{
    if FAULT < end {
        return end;
    }
    if LAST_MEMBER < m {
        return refusal(TOO_MANY);
    }
    let rest = rest_end(t, at, end, sort);
    places[m] = at as u16;
    rest
}

// The same of a template of all the integers.
pub fn integer_member_end(t: &[u8], at: usize, m: usize, places: &mut [u16; 32]) -> usize
    requires { Place t.now at × (length places.old ≡ 32) }
    ensures { Noted (MemberNotes (family_of whole) t.now m places.old places.new) t.now (member (leaves_for whole) m (drop at t.now)) (fault_in result) result × (length places.new ≡ 32) × (take m places.new ≡ take m places.old) }
{
    let end = integer_head_end(t, at);
    numbered_end(t, at, end, m, Sort { word: WHOLE }, places)
}

// The same of another sort.
pub fn other_member_end(t: &[u8], at: usize, m: usize, sort: Sort, places: &mut [u16; 32]) -> usize
    requires { Place t.now at × (length places.old ≡ 32) }
    ensures { Noted (MemberNotes (family_of sort) t.now m places.old places.new) t.now (member (leaves_for sort) m (drop at t.now)) (fault_in result) result × (length places.new ≡ 32) × (take m places.new ≡ take m places.old) }
{
    let end = other_head_end(t, at, sort);
    numbered_end(t, at, end, m, sort, places)
}

// The block of the members from m on up to `count`, and of the 20 whose min and max stand at `star`, or of none where that is 0.
fn group_block(t: &[u8], m: usize, count: usize, star: usize) -> u32
    requires { (m ≤ count) × (count ≤ 32) × ((star ≡ 0 → ⊥) → star + 2 ≤ length t.now) }
    ensures { Says result (group_block t.now m count star) }
{
    let first = m as u8;
    let k = (count - m) as u8;
    if star == 0 {
        return number_of(Block {
            first,
            k,
            min: 0,
            max: 0,
        });
    }
    number_of(Block {
        first,
        k,
        min: t[star],
        max: t[star + 1],
    })
}

// The place after n such items at `at`, with m members before them, or a refusal; a 20 is allowed where `stars` says so. They are one block. Most items are
// members, so what is no member is asked about after it was refused as one.
pub fn group_end(
    t: &[u8],
    at: usize,
    n: usize,
    m: usize,
    stars: bool,
    sort: Sort,
    places: &mut [u16; 32],
    block: &mut u32,
) -> usize
    requires { Place t.now at × (m ≤ 32) × (length places.old ≡ 32) }
    ensures { Noted (GroupNotes (family_of sort) t.now m places.old block.new places.new) t.now (members (leaves_for sort) stars n m no_star (drop at t.now)) (fault_in result) result × (length places.new ≡ 32) }
{
    let mut p = at;
    let mut count = m;
    let mut star: usize = 0;
    for _ in 0..n {
        let here = p;
        p = if sort.word == WHOLE {
            integer_member_end(t, here, count, places)
        } else {
            other_member_end(t, here, count, sort, places)
        };
        if FAULT < p {
            if !(stars & (kind_at(t, here) == STARS)) {
                return p;
            }
            p = star_end(t, here, star != 0);
            if FAULT < p {
                return p;
            }
            star = here + 1;
        } else {
            count += 1;
        }
    }
    *block = group_block(t, m, count, star);
    p
}
