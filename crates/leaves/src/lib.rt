// A leaf where it stands: the integers between which it matches, or the decoded leaf of the float family. Whoever asks what a leaf matches
// reads it here.
#![tactic(auto)]

ghost use Rattle.std.specs.Prelude.{◌≡◌};
ghost use Rattle.leaves.specs.Leaves.{LeafHere, BoundsHere, FloatLeafHere, FloatHere, float_leaf_size};

use floats::{Leaf, float_at};
use format::{
    ANY_SIZE, FLOAT, FLOAT_RANGE_SIZE, FLOAT_SIZE, GREATEST, LEAST, RANGE, RANGE_SIZE, SINGLE,
    SINGLE_SIZE,
};
use integers::int_at;

// The bounds of a leaf, both included, and the place after it.
#[derive(Clone, Copy)]
pub struct Bounds {
    pub lower: i32,
    pub upper: i32,
    pub next: usize,
}

// The bounds of the leaf of the integer family at `at`, which was accepted: 01 is the range of its integer alone, 03 that of all integers.
pub fn bounds_at(t: &[u8], at: usize) -> Bounds
    requires { LeafHere t.now at }
    ensures { BoundsHere t.now at result.lower result.upper result.next }
{
    let kind = t[at];
    if kind == SINGLE {
        let x = int_at(t, at + 1);
        return Bounds {
            lower: x,
            upper: x,
            next: at + SINGLE_SIZE,
        };
    }
    if kind == RANGE {
        let lower = int_at(t, at + 1);
        let upper = int_at(t, at + 5);
        return Bounds {
            lower,
            upper,
            next: at + RANGE_SIZE,
        };
    }
    Bounds {
        lower: LEAST,
        upper: GREATEST,
        next: at + ANY_SIZE,
    }
}

// The 06 or 07 at `at`, which was accepted, decoded.
pub fn float_leaf_at(t: &[u8], at: usize) -> Leaf
    requires { FloatLeafHere t.now at }
    ensures { FloatHere t.now at result }
{
    let lower = float_at(t, at + 1);
    if t[at] == FLOAT {
        return Leaf::Float(lower);
    }
    let upper = float_at(t, at + 9);
    Leaf::Range(floats::Bounds { lower, upper })
}

// How many bytes a 06 or 07 has.
pub fn float_leaf_size(kind: u8) -> usize
    ensures { result ≡ float_leaf_size kind }
{
    if kind == FLOAT {
        FLOAT_SIZE
    } else {
        FLOAT_RANGE_SIZE
    }
}
