// The answer of the normaliser: a number, and the form in a lent room.
#![tactic(auto)]

ghost use Rattle.std.specs.Prelude.{◌≡◌, ◌<◌, length};
ghost use Rattle.ranges.specs.Shown.{view, Few};
ghost use Rattle.ranges.specs.Spans.{Ascending};
ghost use Rattle.forms.specs.Form.{side_form, form};
ghost use Rattle.forms.specs.Answer.{answer, placed};

use format::{DONE, ROOM_TOO_SHORT};
use forms::{form_length, put_form};
use ranges::{cut, gaps, holds};

// The number, and how many bytes the form has: 0 where the number is not 0.
#[derive(Drop)]
pub struct Normal {
    pub number: u8,
    pub length: usize,
}

// A number but 0: no byte is written.
pub fn refused(number: u8) -> Normal
    ensures { (result.number ≡ number) × (result.length ≡ 0) }
{
    Normal { number, length: 0 }
}

// The form that is written from n ranges. The room is looked at before the first byte is written.
pub fn give(room: &mut [u8], outside: bool, lo: &[i32], hi: &[i32], n: usize) -> Normal
    requires { Few n lo.now hi.now }
    ensures { answer result.number result.length room.new ≡ placed (side_form outside (view n lo.now hi.now)) room.old }
{
    let length = form_length(outside, lo, hi, n);
    if room.len() < length {
        return refused(ROOM_TOO_SHORT);
    }
    put_form(room, outside, lo, hi, n);
    Normal {
        number: DONE,
        length,
    }
}

// The form of what the first n ranges, which the arrays lend, hold of the type: it is written from the gaps where the lower bound is matched.
pub fn give_set(
    room: &mut [u8],
    lo: &mut [i32],
    hi: &mut [i32],
    n: usize,
    lower: i32,
    upper: i32,
) -> Normal
    requires { (n < length lo.old) × (n < length hi.old) × (length lo.old < 256) × Ascending (view n lo.old hi.old) }
    ensures { answer result.number result.length room.new ≡ placed (form lower upper (view n lo.old hi.old)) room.old }
{
    if holds(lo, hi, n, lower) {
        let g = gaps(lo, hi, n);
        let c = cut(lo, hi, g, lower, upper);
        return give(room, true, lo, hi, c);
    }
    let c = cut(lo, hi, n, lower, upper);
    give(room, false, lo, hi, c)
}
