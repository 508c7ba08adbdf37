// The sort of a template's leaves: their family and, of integers, the type. It is one number, so that a scan hands it on in a register: the bits of the
// lower bound in the high half, those of the upper one in the low half. The number of the floats is that of no type: its bounds are reversed.
#![tactic(auto)]

ghost use Rattle.std.specs.Prelude.{◌≡◌, ◌||◌};
ghost use Rattle.std.specs.Int.Signed.{lt_z};
ghost use Rattle.format.specs.declared.Family.{Family};
ghost use Rattle.integers.specs.Integer.{least, greatest};
ghost use Rattle.sorts.specs.Sorts.{word_of, lower_of, upper_of};

use format::Family;
use integers::{to_bits, to_signed};

#[derive(Clone, Copy)]
pub struct Sort {
    pub word: u64,
}

// All 32-bit integers.
pub const WHOLE: u64 = 0x8000_0000_7fff_ffff;

pub const FLOATS: u64 = 0x7fff_ffff_8000_0000;

// One of the high half.
const HIGH: u64 = 0x1_0000_0000;

// The sort of a template without a type.
pub fn untyped(family: Family) -> Sort
    ensures { result.word ≡ word_of family least greatest }
{
    match family {
        Family::Integers => Sort { word: WHOLE },
        Family::Floats => Sort { word: FLOATS },
    }
}

// The sort of the integers of this type.
pub fn typed(lower: i32, upper: i32) -> Sort
    ensures { result.word ≡ word_of Family.Integers lower upper }
{
    Sort {
        word: to_bits(lower) as u64 * HIGH + to_bits(upper) as u64,
    }
}

// The lower bound of the type.
pub fn lower_of(sort: Sort) -> i32
    ensures { result ≡ lower_of sort }
{
    to_signed((sort.word / HIGH) as u32)
}

// The upper bound of the type.
pub fn upper_of(sort: Sort) -> i32
    ensures { result ≡ upper_of sort }
{
    to_signed((sort.word % HIGH) as u32)
}

// Whether the integers from `lower` to `upper` reach outside the type.
pub fn reaches(sort: Sort, lower: i32, upper: i32) -> bool
    ensures { result ≡ (lt_z lower (lower_of sort) || lt_z (upper_of sort) upper) }
{
    (lower < lower_of(sort)) | (upper_of(sort) < upper)
}
