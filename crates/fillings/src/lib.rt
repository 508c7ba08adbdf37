// The first list in byte order in which every element has a member, and no member stands twice.
#![tactic(auto)]

ghost use Rattle.std.specs.Prelude.{◌≤◌, is_some};
ghost use Rattle.rows.specs.Rows.{may};
ghost use Rattle.blocks.specs.Pieces.{Filling, bytes_of};

use assign::{first_assignment, splice};
use format::SPARE;

mod pad; // rows with elements that every member may take

// The first assignment of the elements 0 .. n - 1 in which each has a member below k, and no member stands twice, if there is one. The elements n .. k - 1 are
// added, which every member may take: the members that the others leave fill them.
pub fn first_filling(rows: &[u32; 32], k: u8, n: u8) -> Option<[u8; 32]>
    requires { (k ≤ 32) × (n ≤ 32) }
    ensures { Filling (may rows.now) k n (is_some result) (bytes_of result) }
{
    if k < n {
        return None;
    }
    let p = pad::padded(rows, n, k);
    let x = first_assignment(&p, 0, k, 0, k)?;
    Some(splice(x, [SPARE; 32], 0, n as usize))
}
