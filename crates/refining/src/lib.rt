// From an assignment to the first one in byte order: from left to right each element is given the least member that it can have.
#![tactic(auto)]

ghost use Rattle.std.specs.Prelude.{◌≡◌, true, ◌&&◌, ℕ, ◌+◌, ◌<◌, ◌≤◌, min, get_or};
ghost use Rattle.masks.specs.Masks.{bit};
ghost use Rattle.facts.specs.Counting.{between};
ghost use Rattle.rows.specs.Rows.{may, picks};
ghost use Rattle.rows.specs.Columns.{Turned};
ghost use Rattle.chains.specs.Chain.{Holders};
ghost use Rattle.refining.specs.AsBytes.{Dealt};
ghost use Rattle.refining.specs.Refine.{Later, Next, Standing, Candidates, Exchanges, Exchanged, Improves, Leads};

use chains::{explore, settle, spare_places};
use format::{MEMBERS_MOST, SPARE};
use masks::{below, flip, lesser_byte, lowest, span, with, without_lowest};

// Of the members that are left, those that may take e and are below its byte: who can make the list come earlier.
fn rivals(rows: &[u32; 32], left: u32, byte: u8, e: u8) -> u32
    requires { e < 32 }
    ensures { (m : ℕ) → bit result m ≡ ((may rows.now m e && bit left m) && between 0 (min byte 32) m) }
{
    let bound = below(lesser_byte(byte, MEMBERS_MOST));
    rows[e as usize] & left & bound
}

// The members that hold the places.
fn holders(w: &[u8; 32], places: u32) -> u32
    requires { (i : ℕ) → bit places i ≡ true → get_or w.now i 0 < 32 }
    ensures { Holders w.now (bit places) (bit result) }
{
    let mut found: u32 = 0;
    let mut rest = places;
    while rest != 0 {
        let e = lowest(rest);
        rest = without_lowest(rest);
        let m = w[e as usize];
        found = with(found, m);
    }
    found
}

// Of the rivals, those who can have e: if a chain from its holder leads to a spare place, all; else those to whom it leads.
fn candidates(columns: &[u32; 32], to: u8, free: u32, w: &[u8; 32], e: u8, rivals: u32) -> u32
    requires { Standing (picks columns.now) to (bit free) w.now e (bit rivals) }
    ensures { Candidates (picks columns.now) to w.now e (bit rivals) (bit result) }
{
    let holder = w[e as usize];
    if holder >= MEMBERS_MOST {
        return rivals;
    }
    let mut tried = span(e + 1, to) ^ free;
    if explore(columns, free, &mut tried, w, holder) {
        return rivals;
    }
    let reached = holders(w, tried);
    rivals & reached
}

// The first place after e that holds m.
fn place_of(w: &[u8; 32], m: u8, e: u8) -> u8
    requires { Later w.now m e 32 }
    ensures { Next w.now m e result }
{
    (e + 1..32).find(|p| w[*p as usize] == m).unwrap()
}

// Gives e to m, who has a later place: that place is spare then, and whom e belonged to is served by the places after e. What is spare then.
fn exchange(columns: &[u32; 32], to: u8, free: u32, w: &mut [u8; 32], e: u8, m: u8) -> u32
    requires { Exchanges (picks columns.now) to (bit free) w.old e m }
    ensures { Exchanged (picks columns.now) to w.old e m (bit result) w.new }
{
    let p = place_of(w, m, e);
    let owner = w[e as usize];
    w[p as usize] = SPARE;
    w[e as usize] = m;
    let spare = with(free, p);
    if owner >= MEMBERS_MOST {
        return spare;
    }
    let mut left = span(e + 1, to) ^ spare;
    let end = settle(columns, spare, &mut left, w, owner);
    flip(spare, end)
}

// Gives e to the least of the rivals that can have it while the places before e stay as they are. What is spare then after e.
fn improve(columns: &[u32; 32], to: u8, free: u32, w: &mut [u8; 32], e: u8, rivals: u32) -> u32
    requires { Standing (picks columns.now) to (bit free) w.old e (bit rivals) }
    ensures { Improves (picks columns.now) to w.old e (bit rivals) (bit result) w.new }
{
    if rivals == 0 {
        return free;
    }
    let able = candidates(columns, to, free, w, e, rivals);
    if able == 0 {
        return free;
    }
    let m = lowest(able);
    exchange(columns, to, free, w, e, m)
}

// The first assignment, from any.
pub fn refine(
    rows: &[u32; 32],
    columns: &[u32; 32],
    first: u8,
    k: u8,
    from: u8,
    to: u8,
    w: [u8; 32],
) -> [u8; 32]
    requires { (first + k ≤ 32) × (from ≤ to) × (to ≤ 32) × Turned rows.now first k from to columns.now × Dealt (picks columns.now) first k from to w }
    ensures { Leads (picks columns.now) first k from to result to }
{
    let mut x = w;
    let mut free = spare_places(w, from, to);
    // the members that stand nowhere before e
    let mut left = span(first, first + k);
    // the last element has no place after it to change with
    for e in from..to.saturating_sub(1) {
        let byte = x[e as usize];
        let wanted = rivals(rows, left, byte, e);
        let after = span(e + 1, to);
        free = improve(columns, to, free & after, &mut x, e, wanted);
        let now = x[e as usize];
        if now < MEMBERS_MOST {
            left = flip(left, now);
        }
    }
    x
}
