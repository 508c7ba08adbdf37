// The first assignment of a piece by a block, in byte order. Members and elements are numbers below 32, and bit m of `rows[e]` says
// that member m may take element e. Chains start at members, so the search goes by columns, the rows turned.
#![tactic(auto)]

ghost use Rattle.std.specs.Prelude.{◌≡◌, false, ◌+◌, ◌≤◌, is_some};
ghost use Rattle.assign.specs.Splice.{Spliced};
ghost use Rattle.blocks.specs.Pieces.{bytes_of};
ghost use Rattle.masks.specs.Masks.{bit};
ghost use Rattle.rows.specs.Rows.{may};
ghost use Rattle.assign.specs.Answer.{Answer};
ghost use Rattle.assign.specs.Saturate.{Unwanted};
ghost use Rattle.assign.specs.Widest.{Widest};

use format::MEMBERS_MOST;
use masks::{meets, span};
use refining::refine;
use rows::turned;

mod quick; // the least free member for each element
mod saturate; // an assignment, if there is one
mod widest; // as many members as can be

// The byte of each element, and the members that have none.
#[derive(Drop)]
pub struct Served {
    pub w: [u8; 32],
    pub waiting: u32,
}

// Whether a member of the block may take a spare element of the piece. If not, no chain ends: that is seen before the rows are turned.
fn spare_wanted(rows: &[u32; 32], block: u32, from: u8, to: u8, w: [u8; 32]) -> bool
    requires { (from ≤ to) × (to ≤ 32) }
    ensures { result ≡ false → Unwanted (may rows.now) (bit block) from to w }
{
    let mut able: u32 = 0;
    for e in from..to {
        if w[e as usize] >= MEMBERS_MOST {
            able |= rows[e as usize];
        }
    }
    meets(able, block)
}

// The first assignment of the elements from .. to - 1 by the members first .. first + k - 1, if there is one.
pub fn first_assignment(rows: &[u32; 32], first: u8, k: u8, from: u8, to: u8) -> Option<[u8; 32]>
    requires { (first + k ≤ 32) × (from ≤ to) × (to ≤ 32) }
    ensures { Answer (may rows.now) first k from to (is_some result) (bytes_of result) }
{
    let q = quick::quick(rows, first, k, from, to);
    let begun = q.w;
    if q.waiting == 0 {
        return Some(begun);
    }
    let block = span(first, first + k);
    if !spare_wanted(rows, block, from, to, begun) {
        return None;
    }
    let columns = turned(rows, first, k, from, to);
    let w = saturate::saturate(&columns, from, to, begun, q.waiting)?;
    Some(refine(rows, &columns, first, k, from, to, w))
}

// As many of the members below k as can be, each with an element below n of its own; the others wait.
pub fn widest_assignment(rows: &[u32; 32], k: u8, n: u8) -> Served
    requires { (k ≤ 32) × (n ≤ 32) }
    ensures { Widest (may rows.now) 0 k 0 n result.w (bit result.waiting) }
{
    let q = quick::quick(rows, 0, k, 0, n);
    let columns = turned(rows, 0, k, 0, n);
    let begun = q.w;
    widest::serve_all(&columns, 0, n, begun, q.waiting)
}

// The bytes from .. to - 1 of a, and the other bytes of b.
pub fn splice(a: [u8; 32], b: [u8; 32], from: usize, to: usize) -> [u8; 32]
    requires { (from ≤ to) × (to ≤ 32) }
    ensures { Spliced a b from to result }
{
    let mut r = b;
    r[from..to].copy_from_slice(&a[from..to]);
    r
}
