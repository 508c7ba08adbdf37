// An assignment of the piece by the block, if there is one: the members that are left are served in turn.
ghost use Rattle.std.specs.Prelude.{ℕ, ◌+◌, ◌≤◌, is_some};
ghost use Rattle.masks.specs.Masks.{bit};
ghost use Rattle.rows.specs.Rows.{picks};
ghost use Rattle.blocks.specs.Pieces.{bytes_of};
ghost use Rattle.refining.specs.AsBytes.{Partly};
ghost use Rattle.assign.specs.Saturate.{Saturated};

use chains::{explore, settle, spare_places};
use masks::{flip, lowest, span};

// An assignment of the elements from .. to - 1, from one in which the members of `left` have none.
pub fn saturate(
    columns: &[u32; 32],
    from: u8,
    to: u8,
    begun: [u8; 32],
    left: u32,
) -> Option<[u8; 32]>
    requires { (from ≤ to) × (to ≤ 32) }
    ensures { (first k : ℕ) → first + k ≤ 32 → Partly (picks columns.now) first k from to begun (bit left) → Saturated (picks columns.now) first k from to (is_some result) (bytes_of result) }
{
    let mut w = begun;
    let piece = span(from, to);
    let mut free = spare_places(w, from, to);
    let mut waiting = left;
    while waiting != 0 {
        let m = lowest(waiting);
        let mut tried = piece ^ free;
        if !explore(columns, free, &mut tried, &w, m) {
            return None;
        }
        let end = settle(columns, free, &mut tried, &mut w, m);
        free = flip(free, end);
        waiting = flip(waiting, m);
    }
    Some(w)
}
