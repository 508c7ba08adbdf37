// The pairs that an offered witness gives: each element with its member. Only these are tested.
#![tactic(auto)]

ghost use Rattle.std.specs.Prelude.{List, ◌≡◌, ◌+◌, length, take};
ghost use Rattle.grammar.specs.Element.{Elem};
ghost use Rattle.format.specs.declared.Family.{Family};
ghost use Rattle.grammar.specs.Family.{LeafOf, list_of, Lent};
ghost use Rattle.grammar.specs.Blocks.{Standing};
ghost use Rattle.member_rows.specs.Places.{Served};
ghost use Rattle.pairs.specs.Pairs.{Paired};

use element_match::{float_hit, hit, leaf_hit};
use format::{ANY, COMPLEMENT, MEMBERS_MOST, SPARE};
use masks::{flip, has, span};

// Says that a pair is wrong: no mask of members is so large.
pub const WRONG: u64 = 0x1_0000_0000;

// The answer that these members are left over.
fn said(left: u32) -> u64
    ensures { result ≡ left }
{
    left as u64
}

// The members that w gives no element; or WRONG, where an element is given to a member that does not match it, or to none, or a member is given twice.
pub fn left_over(
    t: &[u8],
    places: &[u16; 32],
    members: usize,
    integers: &[i32],
    floats: &[f64],
    w: &[u8],
) -> u64
    requires { Served t.now places.now members integers.now floats.now × (length w.now ≡ length integers.now + length floats.now) }
    ensures { (f : Family) → Lent f integers.now floats.now → (es : List (Elem (LeafOf f))) → Standing f t.now es (take members places.now) → Paired f es (list_of f integers.now floats.now) w.now result }
{
    let mut left = span(0, members as u8);
    for (e, &x) in w.iter().enumerate() {
        if x != SPARE {
            if MEMBERS_MOST <= x {
                return WRONG;
            }
            if !has(left, x) {
                return WRONG;
            }
            left = flip(left, x);
            let at = places[x as usize] as usize;
            let kind = t[at];
            let right = if kind < ANY {
                leaf_hit(t, at, integers[e])
            } else if kind == ANY {
                true
            } else if COMPLEMENT < kind {
                float_hit(t, at, floats[e])
            } else {
                hit(t, at, integers, floats, e)
            };
            if !right {
                return WRONG;
            }
        }
    }
    said(left)
}
