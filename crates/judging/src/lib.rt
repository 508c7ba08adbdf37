// Tests of offered lists: is this a cut. They share the definitions of `blocks` with the search, and nothing else. Which member may take which
// element is not asked here: only the pairs that a list gives are tested, and elsewhere.
#![tactic(auto)]

ghost use Rattle.std.specs.Prelude.{◌≡◌, ◌≤◌, eqb, take, length};
ghost use Rattle.facts.specs.Counting.{cnt};
ghost use Rattle.blocks.specs.Numbers.{blocks_in};
ghost use Rattle.blocks.specs.Pieces.{Inside, Cuts, Passing};
ghost use Rattle.judging.specs.Reach.{any_pair, SparesOf};

use blocks::block_at;
use format::SPARE;
use masks::{has_place, with_place};

mod reach; // the places of an offered list that the blocks so far reach

// The elements that w leaves spare.
fn spares_of(w: &[u8]) -> u64
    requires { length w.now ≤ 32 }
    ensures { SparesOf w.now (length w.now) result }
{
    let mut spares: u64 = 0;
    for (e, &x) in w.iter().enumerate() {
        if x == SPARE {
            spares = with_place(spares, e);
        }
    }
    spares
}

// Whether w leaves no element spare.
pub fn none_spare(w: &[u8]) -> bool
    ensures { result ≡ eqb (cnt 255 w.now) 0 }
{
    !w.contains(&SPARE)
}

// Whether w is a cut by the first `count` blocks of as many elements as it has bytes, where any member may take any element.
pub fn cut_passes(blocks: &[u32; 32], count: usize, w: &[u8]) -> bool
    requires { (count ≤ 32) × (length w.now ≤ 32) × Inside (blocks_in (take count blocks.now)) }
    ensures { Passing (Cuts any_pair (blocks_in (take count blocks.now)) 0 (length w.now) w.now) result }
{
    let spares = spares_of(w);
    let mut reach = reach::start();
    for j in 0..count {
        let b = block_at(blocks, j);
        reach = reach::extend(b, reach, spares, w);
    }
    has_place(reach, w.len())
}
