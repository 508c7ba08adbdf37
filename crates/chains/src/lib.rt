// One member more, by an alternating chain through members and elements.
#![tactic(auto)]

ghost use Rattle.std.specs.Prelude.{◌≤◌};
ghost use Rattle.masks.specs.Masks.{bit};
ghost use Rattle.rows.specs.Rows.{picks};
ghost use Rattle.chains.specs.Chain.{Spares, Ready, Settled, Explored};

use format::{MEMBERS_MOST, SPARE};
use masks::{flip, highest, lowest, with};
use rows::choices;

// The spare places among from .. to - 1.
pub fn spare_places(w: [u8; 32], from: u8, to: u8) -> u32
    requires { (from ≤ to) × (to ≤ 32) }
    ensures { Spares w from to (bit result) }
{
    let mut free: u32 = 0;
    for e in from..to {
        if w[e as usize] >= MEMBERS_MOST {
            free = with(free, e);
        }
    }
    free
}

// Whether a chain leads from m to a place of `free` through places of `held`, of which those that were tried are left.
// It goes over places and moves nobody, so it is cheap where there is no chain; `settle` then finds one among what was tried.
pub fn explore(columns: &[u32; 32], free: u32, held: &mut u32, w: &[u8; 32], m: u8) -> bool
    requires { Ready (bit free) (bit held.old) w.now m }
    ensures { Explored (picks columns.now) (bit free) (bit held.old) w.now m result (bit held.new) }
{
    let all = *held;
    let mut rest = all;
    let mut wide = choices(columns, m);
    while wide & free == 0 {
        if wide & rest == 0 {
            *held = all ^ rest;
            return false;
        }
        let e = lowest(wide & rest);
        rest = flip(rest, e);
        let owner = w[e as usize];
        let row = choices(columns, owner);
        wide = wide | row;
    }
    *held = all ^ rest;
    true
}

// Tries to give member m a place of `free` or `left`, moving other members along an alternating chain: the spare place at its end, or SPARE.
// A spare place is taken at once. A held place is tried once in the whole search: whoever comes later finds it tried.
// The highest first: what `explore` tried last is where the chain ends.
pub fn settle(columns: &[u32; 32], free: u32, left: &mut u32, w: &mut [u8; 32], m: u8) -> u8
    requires { Ready (bit free) (bit left.old) w.old m }
    ensures { Settled (picks columns.now) (bit free) (bit left.old) w.old m result (bit left.new) w.new }
{
    let row = choices(columns, m);
    if row & free != 0 {
        let e = lowest(row & free);
        w[e as usize] = m;
        return e;
    }
    while row & *left != 0 {
        let e = highest(row & *left);
        *left = flip(*left, e);
        let owner = w[e as usize];
        let end = settle(columns, free, left, w, owner);
        if end < MEMBERS_MOST {
            w[e as usize] = m;
            return end;
        }
    }
    SPARE
}
