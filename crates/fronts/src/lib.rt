// The first cut of a list in byte order, from the first block on, where the places are known from which the blocks after each can go on.
#![tactic(auto)]

ghost use Rattle.std.specs.Prelude.{◌≡◌, Bool, true, ℕ, ◌+◌, ◌≤◌, ◌<◌, length, take, get_or, List, is_some};
ghost use Rattle.assign.specs.Splice.{Spliced};
ghost use Rattle.rows.specs.Rows.{may as may_rows};
ghost use Rattle.masks.specs.Masks.{bit, Plus};
ghost use Rattle.blocks.specs.Numbers.{block_in, blocks_in};
ghost use Rattle.blocks.specs.Pieces.{Inside, Cutting, is_one, bytes_of};
ghost use Rattle.places.specs.Ways.{Low};
ghost use Rattle.fronts.specs.Fronts.{Leading, Standing, Moved};
ghost use Rattle.fronts.specs.Picks.{Picking};
ghost use Rattle.fronts.specs.Given.{Ready, ReadyFor, Known, KnownFor, Prepares, Prepared, Halfway, HalfwayFor, is_group};

use blocks::{Block, block_at, is_one};
use format::SPARE;
use masks::with_place;
use pick::{first_member, first_piece, start};
use place_masks::{after_spares, from_on, in_both, lowest_place, up_to};
use places::after_last;

mod pick; // the first of the lists that a group takes

// The bytes before `from` are settled. The next block begins at one of the places, with spare elements up to there: which one, the blocks to
// come decide.
#[derive(Drop)]
struct Front {
    places: u64,
    from: usize,
}

// A block with no members settles nothing.
fn after_star(b: Block, f: Front, ends: u64) -> Front
    requires { (b.k ≡ 0) × Low ends 32 }
    ensures { (may : ℕ → ℕ → Bool) (w : List ℕ) → Leading may b ends f.places → Standing f.places f.from w → Moved may b ends f.places f.from w result.places result.from w }
{
    Front {
        places: in_both(after_spares(f.places, b.min as usize, b.max as usize), ends),
        from: f.from,
    }
}

// One member has the first of the places.
fn after_one(b: Block, f: Front, w: &mut [u8; 32]) -> Front
    requires { (is_one b ≡ true) × (b.first + b.k ≤ 32) × (0 < f.places) × Low f.places 31 × Standing f.places f.from w.old }
    ensures { (may : ℕ → ℕ → Bool) (ends : ℕ) → Low ends 32 → Leading may b ends f.places → Moved may b ends f.places f.from w.old result.places result.from w.new }
{
    let q = lowest_place(f.places);
    w[q] = b.first;
    Front {
        places: with_place(0, q + 1),
        from: q + 1,
    }
}

// Copies the bytes from .. to - 1 of a.
fn copy_piece(a: &[u8; 32], from: usize, to: usize, w: &mut [u8; 32])
    requires { (from ≤ to) × (to ≤ 32) × (length w.old ≡ 32) }
    ensures { Spliced a.now w.old from to w.new }
{
    w[from..to].copy_from_slice(&a[from..to]);
}

// A group settles what comes up to the last member of g, the first of its lists, which ends at `to` or before. It may begin at each place up to the first.
fn settle_group(g: &[u8; 32], to: usize, b: Block, f: Front, ends: u64, w: &mut [u8; 32]) -> Front
    requires { (b.first + b.k ≤ 32) × (0 < b.k) × Low ends 32 × (f.from ≤ to) × (to ≤ 32) × Standing f.places f.from w.old }
    ensures { (may : ℕ → ℕ → Bool) → Picking may b ends f.places g.now to 0 → Moved may b ends f.places f.from w.old result.places result.from w.new }
{
    let head = first_member(g, f.from, to);
    let next = after_last(g, head, to);
    copy_piece(g, f.from, next, w);
    let least = b.k as usize + b.min as usize;
    let most = b.k as usize + b.max as usize;
    let reached = after_spares(up_to(f.places, head), least, most);
    Front {
        places: in_both(reached, from_on(ends, next)),
        from: next,
    }
}

// The same, where the group leads on from each of the places.
fn after_group(rows: &[u32; 32], b: Block, f: Front, ends: u64, w: &mut [u8; 32]) -> Front
    requires { (b.first + b.k ≤ 32) × (0 < b.k) × Low ends 32 × Leading (may_rows rows.now) b ends f.places × Standing f.places f.from w.old }
    ensures { Moved (may_rows rows.now) b ends f.places f.from w.old result.places result.from w.new }
{
    let mut g = [SPARE; 32];
    let to = first_piece(rows, b, f.places, ends, &mut g);
    settle_group(&g, to, b, f, ends, w)
}

// One block more.
fn after_block(rows: &[u32; 32], b: Block, f: Front, ends: u64, w: &mut [u8; 32]) -> Front
    requires { (b.first + b.k ≤ 32) × Standing f.places f.from w.old × ReadyFor rows.now b ends f.places }
    ensures { (may : ℕ → ℕ → Bool) (n : ℕ) → n ≤ 32 → Ready may rows.now b ends f.places n → Moved may b ends f.places f.from w.old result.places result.from w.new }
{
    if b.k == 0 {
        return after_star(b, f, ends);
    }
    if is_one(b) {
        return after_one(b, f, w);
    }
    after_group(rows, b, f, ends, w)
}

// Nothing is settled, and the first block begins at the place 0.
fn at_start() -> Front
    ensures { Plus (bit 0) 0 (bit result.places) × (result.from ≡ 0) }
{
    Front {
        places: with_place(0, 0),
        from: 0,
    }
}

// The blocks from `j` on, one after the other; those before them are settled.
fn cut_on(
    rows: &[u32; 32],
    blocks: &[u32; 32],
    j: usize,
    count: usize,
    ends: &[u64; 32],
    n: u8,
    f: Front,
    w: &mut [u8; 32],
)
    requires { (j ≤ count) × (count ≤ 32) × (n ≤ 32) × Inside (blocks_in (take count blocks.now)) × HalfwayFor rows.now count blocks.now ends.now n j f.places f.from w.old }
    ensures { (may : ℕ → ℕ → Bool) → Halfway may rows.now count blocks.now ends.now n j f.places f.from w.old → Cutting may (blocks_in (take count blocks.now)) n true w.new }
{
    let mut front = f;
    for i in j..count {
        let b = block_at(blocks, i);
        front = after_block(rows, b, front, ends[i], w);
    }
}

// The first cut of the elements 0 .. n - 1 by the first `count` blocks, which have one; `ends` has for each block the places from which those
// after it can go on.
pub fn first_cut_from(
    rows: &[u32; 32],
    blocks: &[u32; 32],
    count: usize,
    ends: &[u64; 32],
    n: u8,
) -> [u8; 32]
    requires { (count ≤ 32) × (n ≤ 32) × Inside (blocks_in (take count blocks.now)) × Prepared rows.now count blocks.now ends.now n }
    ensures { (may : ℕ → ℕ → Bool) → Prepares may rows.now count blocks.now ends.now n → Cutting may (blocks_in (take count blocks.now)) n true result }
{
    let mut w = [SPARE; 32];
    cut_on(rows, blocks, 0, count, ends, n, at_start(), &mut w);
    w
}

// The first cut, if there is one, by blocks of which the first is a group: it is searched for once, from the place 0.
pub fn first_cut_by_group(
    rows: &[u32; 32],
    blocks: &[u32; 32],
    count: usize,
    ends: &[u64; 32],
    n: u8,
) -> Option<[u8; 32]>
    requires { (0 < count) × (count ≤ 32) × (n ≤ 32) × Inside (blocks_in (take count blocks.now)) × (is_group (block_in (get_or blocks.now 0 0)) ≡ true) × KnownFor rows.now count blocks.now ends.now n }
    ensures { (may : ℕ → ℕ → Bool) → Known may rows.now count blocks.now ends.now n → Cutting may (blocks_in (take count blocks.now)) n (is_some result) (bytes_of result) }
{
    let f = at_start();
    let b = block_at(blocks, 0);
    let good = ends[0];
    let mut g = [SPARE; 32];
    let s = start(rows, b, f.places, good, &mut g);
    if s.to == 0 {
        return None;
    }
    let mut w = [SPARE; 32];
    let next = settle_group(&g, s.to, b, f, good, &mut w);
    cut_on(rows, blocks, 1, count, ends, n, next, &mut w);
    Some(w)
}
