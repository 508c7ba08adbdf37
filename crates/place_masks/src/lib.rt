// Sets of the places of a list as masks of 64 bits: cut off, taken together, and spread by spare elements. No proof above these functions
// sees a shift.
#![tactic(auto)]

ghost use Rattle.std.specs.Prelude.{◌≡◌, ◌&&◌, ◌||◌, not, ℕ, ◌+◌, ◌-◌, ◌<◌, ◌≤◌, leb, ltb};
ghost use Rattle.masks.specs.Masks.{bit, Lowest, Highest};
ghost use Rattle.place_masks.specs.Places.{Before, After};

use masks::lesser;

// Every place below 64.
const EVERYWHERE: u64 = 0xffff_ffff_ffff_ffff;

// The places up to p.
pub fn up_to(places: u64, p: usize) -> u64
    ensures { (e : ℕ) → bit result e ≡ (leb e p && bit places e) }
{
    if 63 <= p {
        return places;
    }
    places % (1 << (p + 1))
}

// The places from p on.
pub fn from_on(places: u64, p: usize) -> u64
    ensures { (e : ℕ) → bit result e ≡ (leb p e && bit places e) }
{
    if 63 < p {
        return 0;
    }
    (places >> p) << p
}

// The places in both.
pub fn in_both(a: u64, b: u64) -> u64
    ensures { (e : ℕ) → bit result e ≡ (bit a e && bit b e) }
{
    a & b
}

// The places in one of the two, or in both.
pub fn in_either(a: u64, b: u64) -> u64
    ensures { (e : ℕ) → bit result e ≡ (bit a e || bit b e) }
{
    a | b
}

// The places of a that are not in b.
pub fn left_out(a: u64, b: u64) -> u64
    ensures { (e : ℕ) → bit result e ≡ (bit a e && not (bit b e)) }
{
    a & !b
}

// `lowest` and `highest` of 64 bits: two functions each, for the reason that `masks` gives at `has_place`.

// The least of the places, of which there is one.
pub fn lowest_place(places: u64) -> usize
    requires { 0 < places }
    ensures { Lowest 64 places result }
{
    u64::trailing_zeros(places) as usize
}

// The greatest of the places, of which there is one.
pub fn highest_place(places: u64) -> usize
    requires { 0 < places }
    ensures { Highest 64 places result }
{
    u64::ilog2(places) as usize
}

// Each place s elements nearer to the start; those before that fall away.
fn moved_down(places: u64, s: usize) -> u64
    requires { s < 64 }
    ensures { (e : ℕ) → bit result e ≡ bit places (e + s) }
{
    places >> s
}

// Each place s elements further on; those from 64 on fall away.
pub fn moved_up(places: u64, s: usize) -> u64
    requires { s < 64 }
    ensures { (e : ℕ) → bit result e ≡ (ltb e 64 && (leb s e && bit places (e - s))) }
{
    places << s
}

// What follows is there twice, down and up. One function for both is no plainer: with the side as an argument each body is a choice between two, and so is each contract and lemma.

// All places up to the greatest.
fn all_below(places: u64) -> u64
    ensures { (more : ℕ) → 63 ≤ more → Before places 0 more result }
{
    if places == 0 {
        return 0;
    }
    EVERYWHERE >> u64::leading_zeros(places)
}

// All places from the least on.
fn all_above(places: u64) -> u64
    ensures { (more : ℕ) → 63 ≤ more → After places 0 more result }
{
    if places == 0 {
        return 0;
    }
    from_on(EVERYWHERE, lowest_place(places))
}

// The places at most `more` before one of these: each turn about doubles how far they are spread.
fn spread_down(places: u64, more: usize) -> u64
    requires { more < 63 }
    ensures { Before places 0 more result }
{
    let mut r = places;
    let mut done: usize = 0;
    while done < more {
        let s = lesser(done + 1, more - done);
        r = in_either(r, moved_down(r, s));
        done += s;
    }
    r
}

// The places at most `more` after one of these.
fn spread_up(places: u64, more: usize) -> u64
    requires { more < 63 }
    ensures { After places 0 more result }
{
    let mut r = places;
    let mut done: usize = 0;
    while done < more {
        let s = lesser(done + 1, more - done);
        r = in_either(r, moved_up(r, s));
        done += s;
    }
    r
}

// The places from which least to most elements lead to one of these.
pub fn before_spares(places: u64, least: usize, most: usize) -> u64
    ensures { Before places least most result }
{
    if 63 < least {
        return 0;
    }
    if most < least {
        return 0;
    }
    let last = moved_down(places, least);
    if 63 <= most - least {
        return all_below(last);
    }
    spread_down(last, most - least)
}

// The places to which least to most elements lead from one of these.
pub fn after_spares(places: u64, least: usize, most: usize) -> u64
    ensures { After places least most result }
{
    if 63 < least {
        return 0;
    }
    if most < least {
        return 0;
    }
    let first = moved_up(places, least);
    if 63 <= most - least {
        return all_above(first);
    }
    spread_up(first, most - least)
}
