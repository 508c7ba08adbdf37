// Eight bytes and a 64-bit float, low byte first; the leaves of the float family, and when one matches.
#![tactic(auto)]

ghost use Rattle.std.specs.Prelude.{◌≡◌, ◌+◌, ◌*◌, ◌≤◌, length};
ghost use Rattle.std.specs.Float.{binary64};
ghost use Rattle.std.specs.Float.Ieee.{nan_bits, of_bits};
ghost use Rattle.floats.specs.Bytes.{float_at};
ghost use Rattle.floats.specs.Leaves.{one_fault, bounds_fault, float_matches};

use format::{BAD_BOUNDS, DONE, NOT_A_NUMBER};
use integers::bits_at;

// A range with both its ends.
#[derive(Clone, Copy)]
pub struct Bounds {
    pub lower: f64,
    pub upper: f64,
}

// A decoded leaf.
#[derive(Clone, Copy)]
pub enum Leaf {
    Float(f64),
    Range(Bounds),
    Any,
}

// The number with these low and high halves.
fn join_halves(low: u32, high: u32) -> u64
    ensures { result ≡ low + high * 4294967296 }
{
    (low as u64) | (high as u64) << 32
}

// Whether these bits are a NaN's: without the sign they are above those of infinity.
fn is_nan_pattern(u: u64) -> bool
    ensures { result ≡ nan_bits binary64 u }
{
    0x7ff0_0000_0000_0000 < u % 0x8000_0000_0000_0000
}

// The float with these bits. A pattern of a NaN is no float's in Rattle.
fn from_pattern(u: u64) -> f64
    ensures { result ≡ of_bits binary64 u }
{
    if is_nan_pattern(u) {
        return f64::NAN;
    }
    f64::from_bits(u)
}

// The float whose eight bytes stand in s from `at` on. Every pattern of a NaN is one value.
pub fn float_at(s: &[u8], at: usize) -> f64
    requires { at + 8 ≤ length s.now }
    ensures { result ≡ float_at s.now at }
{
    from_pattern(join_halves(bits_at(s, at), bits_at(s, at + 4)))
}

// The fault of a 06 with this float, or 0.
pub fn one_fault(x: f64) -> u8
    ensures { result ≡ one_fault x }
{
    if x.is_nan() { NOT_A_NUMBER } else { DONE }
}

// The fault of a 07 with these bounds, or 0.
pub fn bounds_fault(b: Bounds) -> u8
    ensures { result ≡ bounds_fault b }
{
    let lower = b.lower;
    let upper = b.upper;
    if lower.is_nan() | upper.is_nan() {
        return NOT_A_NUMBER;
    }
    if upper < lower {
        return BAD_BOUNDS;
    }
    DONE
}

// Whether x lies between the bounds, both ends included.
fn within(x: f64, b: Bounds) -> bool
    ensures { result ≡ float_matches (Leaf.Range b) x }
{
    let lower = b.lower;
    let upper = b.upper;
    (lower <= x) & (x <= upper)
}

// Whether the leaf matches x, as IEEE 754 compares: no 06 and no 07 matches a NaN.
pub fn leaf_hit(l: Leaf, x: f64) -> bool
    ensures { result ≡ float_matches l x }
{
    match l {
        Leaf::Float(y) => y == x,
        Leaf::Range(b) => within(x, b),
        Leaf::Any => true,
    }
}
