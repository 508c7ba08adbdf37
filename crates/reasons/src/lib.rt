// Why there is no assignment: the group of members whose shortfall is greatest, and which lies inside all other such groups.
// Bit m of `rows[e]` says that member m matches element e.
#![tactic(auto)]

ghost use Rattle.std.specs.Prelude.{◌≡◌, ◌&&◌, ℕ, ◌≤◌, ltb};
ghost use Rattle.masks.specs.Masks.{bit};
ghost use Rattle.rows.specs.Rows.{may};
ghost use Rattle.facts.specs.Counting.{between};
ghost use Rattle.blocks.specs.Assignment.{wanted};
ghost use Rattle.reasons.specs.Reason.{matched, size_of, Given};
ghost use Rattle.reasons.specs.Grow.{Swept, Grown};

use assign::widest_assignment;
use format::MEMBERS_MOST;
use masks::{meets, with};
use rows::turned;

// The group, with those who hold an element that one of it matches: one sweep over the elements.
fn swept(rows: &[u32; 32], w: [u8; 32], n: u8, group: u32) -> u32
    requires { n ≤ 32 }
    ensures { Swept (may rows.now) n w group result }
{
    let mut r = group;
    for e in 0..n {
        let owner = w[e as usize];
        if owner < MEMBERS_MOST {
            if meets(rows[e as usize], r) {
                r = with(r, owner);
            }
        }
    }
    r
}

// The group that is closed in this way, from those who wait.
fn grown(rows: &[u32; 32], w: [u8; 32], n: u8, waiting: u32) -> u32
    requires { n ≤ 32 }
    ensures { Grown (may rows.now) n w (bit waiting) (bit result) }
{
    let mut group = waiting;
    let mut more = true;
    while more {
        let next = swept(rows, w, n, group);
        more = next != group;
        group = next;
    }
    group
}

// The elements below n that at least one of the group matches.
fn joined(rows: &[u32; 32], n: u8, group: u32) -> u32
    requires { n ≤ 32 }
    ensures { (e : ℕ) → bit result e ≡ (between 0 n e && wanted (may rows.now) (bit group) e) }
{
    let mut r: u32 = 0;
    for e in 0..n {
        if meets(rows[e as usize], group) {
            r = with(r, e);
        }
    }
    r
}

// Whether the group is short: the ones of the elements that it matches are counted against its own.
fn is_short(rows: &[u32; 32], n: u8, group: u32) -> bool
    requires { n ≤ 32 }
    ensures { result ≡ ltb (matched (may rows.now) n (bit group)) (size_of (bit group)) }
{
    let elements = joined(rows, n, group);
    u32::count_ones(elements) < u32::count_ones(group)
}

// The reason for k members and n elements, 0 where no group is short.
pub fn reason(rows: &[u32; 32], k: u8, n: u8) -> u32
    requires { (k ≤ 32) × (n ≤ 32) }
    ensures { Given (may rows.now) k n result }
{
    let s = widest_assignment(rows, k, n);
    let w = s.w;
    let group = grown(rows, w, n, s.waiting);
    if is_short(rows, n, group) {
        return group;
    }
    0
}

// The same with elements and members exchanged: a group of elements, and the members that match one of them.
pub fn exchanged_reason(rows: &[u32; 32], k: u8, n: u8) -> u32
    requires { (k ≤ 32) × (n ≤ 32) }
    ensures { Given (λ e m. may rows.now m e) n k result }
{
    let columns = turned(rows, 0, k, 0, n);
    reason(&columns, n, k)
}
