// Which member may take which element: by a row for each element, and turned, by a row for each member, for a search that starts at
// members. Beside these functions only those that make rows or take an element's members together know that a row is an element's.
#![tactic(auto)]

ghost use Rattle.std.specs.Prelude.{◌≡◌, ℕ, ◌+◌, ◌<◌, ◌≤◌};
ghost use Rattle.masks.specs.Masks.{bit};
ghost use Rattle.rows.specs.Rows.{picks};
ghost use Rattle.rows.specs.Columns.{Turned, Piece, Spans};

use exchange::transpose;
use masks::span;

mod exchange; // rows and columns exchanged

// The elements that member m may take, by turned rows.
pub fn choices(columns: &[u32; 32], m: u8) -> u32
    requires { m < 32 }
    ensures { (e : ℕ) → bit result e ≡ picks columns.now m e }
{
    columns[m as usize]
}

// How many rows are in use for members before `end` and elements before `to`: 8, 16 or 32.
fn width(end: u8, to: u8) -> usize
    requires { (end ≤ 32) × (to ≤ 32) }
    ensures { Spans end to result }
{
    let last = end.max(to);
    if 16 < last {
        return 32;
    }
    if 8 < last {
        return 16;
    }
    8
}

// The rows of the elements from .. to - 1, of each the members first .. first + k - 1; every other row is empty.
fn piece(rows: &[u32; 32], first: u8, k: u8, from: u8, to: u8) -> [u32; 32]
    requires { (first + k ≤ 32) × (from ≤ to) × (to ≤ 32) }
    ensures { Piece rows.now first k from to result }
{
    let block = span(first, first + k);
    let mut r = [0u32; 32];
    for e in from as usize..to as usize {
        r[e] = rows[e] & block;
    }
    r
}

// A row for each of the members first .. first + k - 1: which of the elements from .. to - 1 it may take.
pub fn turned(rows: &[u32; 32], first: u8, k: u8, from: u8, to: u8) -> [u32; 32]
    requires { (first + k ≤ 32) × (from ≤ to) × (to ≤ 32) }
    ensures { Turned rows.now first k from to result }
{
    let mut r = piece(rows, first, k, from, to);
    let size = width(first + k, to);
    transpose(&mut r, size);
    r
}
