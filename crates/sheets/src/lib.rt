// The plain reading of a subset: every element has a member, and a member may stand many times.
#![tactic(auto)]

ghost use Rattle.std.specs.Prelude.{List, ◌≡◌, ◌+◌, ◌≤◌, length, take, is_some};
ghost use Rattle.format.specs.declared.Family.{Family};
ghost use Rattle.rows.specs.Rows.{may};
ghost use Rattle.blocks.specs.Pieces.{Contains, Containing, Passing, bytes_of};
ghost use Rattle.grammar.specs.Element.{Elem};
ghost use Rattle.grammar.specs.Family.{LeafOf, list_of, Lent};
ghost use Rattle.grammar.specs.Blocks.{Standing};
ghost use Rattle.member_rows.specs.Contract.{pair_of};
ghost use Rattle.member_rows.specs.Places.{Served};

use element_match::hit;
use format::SPARE;
use masks::{below, lowest};

// The first list in byte order in which each of the elements 0 .. n - 1 has a member below k that may take it: the least such member of each.
pub fn first_containment(rows: &[u32; 32], k: u8, n: u8) -> Option<[u8; 32]>
    requires { (k ≤ 32) × (n ≤ 32) }
    ensures { Containing (may rows.now) k n (is_some result) (bytes_of result) }
{
    let members = below(k);
    let mut w = [SPARE; 32];
    for e in 0..n {
        let row = rows[e as usize] & members;
        if row == 0 {
            return None;
        }
        w[e as usize] = lowest(row);
    }
    Some(w)
}

// Whether w gives each element a member that matches it.
pub fn containment_passes(
    t: &[u8],
    places: &[u16; 32],
    members: usize,
    integers: &[i32],
    floats: &[f64],
    w: &[u8],
) -> bool
    requires { Served t.now places.now members integers.now floats.now × (length w.now ≡ length integers.now + length floats.now) }
    ensures { (f : Family) → Lent f integers.now floats.now → (es : List (Elem (LeafOf f))) → Standing f t.now es (take members places.now) → Passing (Contains (pair_of f es (list_of f integers.now floats.now)) members (length w.now) w.now) result }
{
    for e in 0..w.len() {
        let x = w[e] as usize;
        if members <= x {
            return false; // a spare byte is no member's number either
        }
        let at = places[x] as usize;
        if !hit(t, at, integers, floats, e) {
            return false;
        }
    }
    true
}
