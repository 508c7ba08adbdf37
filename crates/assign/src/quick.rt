// The least free member for each element in turn. Where that serves every member of the block, it is the first assignment.
ghost use Rattle.std.specs.Prelude.{◌+◌, ◌≤◌};
ghost use Rattle.masks.specs.Masks.{bit};
ghost use Rattle.rows.specs.Rows.{may};
ghost use Rattle.assign.specs.Quick.{Greedy};

use crate::Served;
use format::SPARE;
use masks::{flip, lowest, span};

// Each of the elements from .. to - 1 takes the least member of the block that is left and may take it.
pub fn quick(rows: &[u32; 32], first: u8, k: u8, from: u8, to: u8) -> Served
    requires { (first + k ≤ 32) × (from ≤ to) × (to ≤ 32) }
    ensures { Greedy (may rows.now) first k from to result.w (bit result.waiting) to }
{
    let mut w = [SPARE; 32];
    let mut left = span(first, first + k);
    for e in from..to {
        // nobody is left: the other elements are spare
        if left == 0 {
            return Served { w, waiting: left };
        }
        let free = rows[e as usize] & left;
        if free != 0 {
            let m = lowest(free);
            w[e as usize] = m;
            left = flip(left, m);
        }
    }
    Served { w, waiting: left }
}
