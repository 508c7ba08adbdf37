// The places of a list from which blocks can go on to its end, one block more at a time, in front. A block with no members only moves
// places, one member is tested by the caller, and any other block is searched for here.
#![tactic(auto)]

ghost use Rattle.std.specs.Prelude.{◌≡◌, ◌&&◌, ℕ, ◌+◌, ◌<◌, ◌≤◌, ltb};
ghost use Rattle.masks.specs.Masks.{bit};
ghost use Rattle.place_masks.specs.Places.{Ahead};
ghost use Rattle.rows.specs.Rows.{may};
ghost use Rattle.places.specs.Ways.{Low, Back, Led};
ghost use Rattle.places.specs.Bytes.{AfterLast};

use assign::first_assignment;
use blocks::Block;
use format::SPARE;
use masks::with_place;
use place_masks::{before_spares, from_on, highest_place, in_either, left_out, up_to};

// The elements below 32 that one member may have before the good places: those just before one.
pub fn before_one(good: u64) -> u32
    ensures { (e : ℕ) → bit result e ≡ (ltb e 32 && bit good (e + 1)) }
{
    ((good >> 1) % 4294967296) as u32
}

// The place after the last member in the piece from .. to - 1.
pub fn after_last(w: &[u8; 32], from: usize, to: usize) -> usize
    requires { (from ≤ to) × (to ≤ 32) }
    ensures { AfterLast w.now from to result }
{
    for p in (from..to).rev() {
        if w[p] != SPARE {
            return p + 1;
        }
    }
    from
}

// Places from which b leads to a good one, p among them if it does: one search for the furthest end, since nearer ends are no better, and
// what is found serves every place before p that can reach an end after it.
fn led_from(rows: &[u32; 32], b: Block, good: u64, p: usize) -> u64
    requires { (b.first + b.k ≤ 32) × Low good 32 × Ahead good (b.k + b.min) (b.k + b.max) p }
    ensures { Led (may rows.now) b good p result }
{
    let least = b.k as usize + b.min as usize;
    let most = b.k as usize + b.max as usize;
    let q = highest_place(up_to(good, p + most));
    let Some(w) = first_assignment(rows, b.first, b.k, p as u8, q as u8) else {
        return 0;
    };
    let next = after_last(&w, p, q);
    up_to(before_spares(from_on(good, next), least, most), p)
}

// The places from which b leads to a good one.
pub fn before_group(rows: &[u32; 32], b: Block, good: u64) -> u64
    requires { (b.first + b.k ≤ 32) × Low good 32 }
    ensures { Back (may rows.now) b good result }
{
    let mut todo = before_spares(
        good,
        b.k as usize + b.min as usize,
        b.k as usize + b.max as usize,
    );
    let mut r: u64 = 0;
    while todo != 0 {
        let p = highest_place(todo);
        let led = led_from(rows, b, good, p);
        r = in_either(r, led);
        todo = left_out(todo, with_place(led, p));
    }
    r
}
