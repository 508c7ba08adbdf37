// As many members as can be, each with an element of its own: who finds no chain waits, and the search for the others goes on.
ghost use Rattle.std.specs.Prelude.{ℕ, ◌+◌, ◌≤◌};
ghost use Rattle.masks.specs.Masks.{bit};
ghost use Rattle.rows.specs.Rows.{picks};
ghost use Rattle.refining.specs.AsBytes.{Partly};
ghost use Rattle.assign.specs.Widest.{Widest};

use crate::Served;
use chains::{settle, spare_places};
use format::MEMBERS_MOST;
use masks::{flip, lowest, span, with};

// The elements from .. to - 1 for as many as can be, from an assignment in which the members of `left` have none.
// What a search tried in vain leads to no spare place: no later search tries it again.
pub fn serve_all(columns: &[u32; 32], from: u8, to: u8, begun: [u8; 32], left: u32) -> Served
    requires { (from ≤ to) × (to ≤ 32) }
    ensures { (first k : ℕ) → first + k ≤ 32 → Partly (picks columns.now) first k from to begun (bit left) → Widest (picks columns.now) first k from to result.w (bit result.waiting) }
{
    let mut w = begun;
    let mut free = spare_places(w, from, to);
    let mut held = span(from, to) ^ free;
    let mut waiting: u32 = 0;
    let mut rest = left;
    while rest != 0 {
        let m = lowest(rest);
        let mut untried = held;
        let end = settle(columns, free, &mut untried, &mut w, m);
        if end < MEMBERS_MOST {
            free = flip(free, end);
            held = with(held, end);
        } else {
            held = untried;
            waiting = with(waiting, m);
        }
        rest = flip(rest, m);
    }
    Served { w, waiting }
}
