// The first witness of a record of, from its bytes. From the last block to the first: the places from which the blocks can go on to the end of the
// list, where a member that stands alone is tested on the elements that are asked about only, and the rows of a group's members are made when
// the group is reached. Then from the first block on the first cut.
#![tactic(auto)]

ghost use Rattle.std.specs.Prelude.{List, ◌≡◌, ℕ, ◌+◌, ◌≤◌, length, take, is_some};
ghost use Rattle.grammar.specs.Element.{Elem};
ghost use Rattle.format.specs.declared.Family.{Family};
ghost use Rattle.grammar.specs.Family.{LeafOf, list_of, Lent};
ghost use Rattle.grammar.specs.Blocks.{Standing};
ghost use Rattle.blocks.specs.Numbers.{blocks_in};
ghost use Rattle.blocks.specs.Pieces.{Cutting, bytes_of};
ghost use Rattle.member_rows.specs.Places.{Served, Widened};
ghost use Rattle.plain.specs.Plain.{Plain};
ghost use Rattle.places.specs.Ways.{Low};
ghost use Rattle.member_rows.specs.Contract.{pair_of};
ghost use Rattle.records.specs.Records.{Below, Joined, Before, left_out};

use blocks::{Block, block_at, is_one};
use element_match::{float_hit, hit, hits, leaf_hit};
use format::{ANY, COMPLEMENT, SPARE};
use fronts::{first_cut_by_group, first_cut_from};
use masks::{has_place, with_place};
use member_rows::{mark_members, widened};
use place_masks::before_spares;
use places::{before_group, before_one};
use plain::is_plain;
use runs::join_runs;

mod runs; // runs of 20s as one 20

// Puts the members of a group into the rows.
fn mark_group(
    t: &[u8],
    places: &[u16; 32],
    members: usize,
    integers: &[i32],
    floats: &[f64],
    wide: &[i32; 32],
    rows: &mut [u32; 32],
    b: Block,
)
    requires { Served t.now places.now members integers.now floats.now × Widened integers.now wide.now × (length rows.old ≡ 32) × (b.first + b.k ≤ members) }
    ensures { (f : Family) → Lent f integers.now floats.now → (es : List (Elem (LeafOf f))) → Standing f t.now es (take members places.now) → Joined (pair_of f es (list_of f integers.now floats.now)) (length integers.now + length floats.now) b rows.old rows.new }
{
    let first = b.first as usize;
    mark_members(
        rows,
        t,
        places,
        first,
        first + b.k as usize,
        integers,
        floats,
        wide,
    );
}

// The places from which b leads to a good one. The rows get the members of a group.
fn before_block(
    t: &[u8],
    places: &[u16; 32],
    members: usize,
    integers: &[i32],
    floats: &[f64],
    wide: &[i32; 32],
    rows: &mut [u32; 32],
    b: Block,
    good: u64,
) -> u64
    requires { Served t.now places.now members integers.now floats.now × Widened integers.now wide.now × (length rows.old ≡ 32) × (b.first + b.k ≤ members) × Low good (length integers.now + length floats.now) }
    ensures { (f : Family) → Lent f integers.now floats.now → (es : List (Elem (LeafOf f))) → Standing f t.now es (take members places.now) → Before (pair_of f es (list_of f integers.now floats.now)) (length integers.now + length floats.now) b good rows.old rows.new result }
{
    if b.k == 0 {
        return before_spares(good, b.min as usize, b.max as usize);
    }
    if is_one(b) {
        let first = b.first as usize;
        let at = places[first] as usize;
        let asked = before_one(good);
        if t[at] == ANY {
            return asked as u64;
        }
        return hits(t, at, integers, floats, asked) as u64;
    }
    mark_group(t, places, members, integers, floats, wide, rows, b);
    before_group(rows, b, good)
}

// How many blocks the way back leaves out: the first, where it is a group, since it begins at one place only and is searched for on the way forward.
fn left_out(b: Block) -> usize
    ensures { result ≡ left_out b }
{
    if b.k == 0 {
        return 0;
    }
    if is_one(b) {
        return 0;
    }
    1
}

// The first cut by plain blocks: each element is tested on its own member, and there is no other cut.
fn plain_first(
    t: &[u8],
    places: &[u16; 32],
    members: usize,
    count: usize,
    integers: &[i32],
    floats: &[f64],
) -> Option<[u8; 32]>
    requires { Served t.now places.now members integers.now floats.now × (count ≤ members) }
    ensures { (f : Family) → Lent f integers.now floats.now → (es : List (Elem (LeafOf f))) (vs : List ℕ) → Standing f t.now es (take members places.now) → Plain count vs → Cutting (pair_of f es (list_of f integers.now floats.now)) (blocks_in (take count vs)) (length integers.now + length floats.now) (is_some result) (bytes_of result) }
{
    let n = integers.len() + floats.len();
    if n != count {
        return None;
    }
    let mut w = [SPARE; 32];
    for e in 0..n {
        let at = places[e] as usize;
        let kind = t[at];
        let right = if kind < ANY {
            leaf_hit(t, at, integers[e])
        } else if kind == ANY {
            true
        } else if COMPLEMENT < kind {
            float_hit(t, at, floats[e])
        } else {
            hit(t, at, integers, floats, e)
        };
        if !right {
            return None;
        }
        w[e] = e as u8;
    }
    Some(w)
}

// The first cut of the list in byte order by the first `count` blocks, by the places from which they go on.
fn first_by_places(
    t: &[u8],
    places: &[u16; 32],
    members: usize,
    blocks: &[u32; 32],
    count: usize,
    integers: &[i32],
    floats: &[f64],
) -> Option<[u8; 32]>
    requires { Served t.now places.now members integers.now floats.now × (count ≤ 32) × Below members (blocks_in (take count blocks.now)) }
    ensures { (f : Family) → Lent f integers.now floats.now → (es : List (Elem (LeafOf f))) → Standing f t.now es (take members places.now) → Cutting (pair_of f es (list_of f integers.now floats.now)) (blocks_in (take count blocks.now)) (length integers.now + length floats.now) (is_some result) (bytes_of result) }
{
    let n = integers.len() + floats.len();
    let wide = widened(integers);
    let mut rows: [u32; 32] = [0; 32];
    let mut ends: [u64; 32] = [0; 32];
    let mut good = with_place(0, n);
    let last = left_out(block_at(blocks, 0));
    for j in (last..count).rev() {
        ends[j] = good;
        let b = block_at(blocks, j);
        good = before_block(
            t, places, members, integers, floats, &wide, &mut rows, b, good,
        );
    }
    if last != 0 && count != 0 {
        ends[0] = good;
        let b = block_at(blocks, 0);
        mark_group(t, places, members, integers, floats, &wide, &mut rows, b);
        return first_cut_by_group(&rows, blocks, count, &ends, n as u8);
    }
    if !has_place(good, 0) {
        return None;
    }
    Some(first_cut_from(&rows, blocks, count, &ends, n as u8))
}

// The first cut of the list in byte order by the first `count` blocks.
pub fn first_in_record(
    t: &[u8],
    places: &[u16; 32],
    members: usize,
    blocks: &[u32; 32],
    count: usize,
    integers: &[i32],
    floats: &[f64],
) -> Option<[u8; 32]>
    requires { Served t.now places.now members integers.now floats.now × (count ≤ 32) × Below members (blocks_in (take count blocks.now)) }
    ensures { (f : Family) → Lent f integers.now floats.now → (es : List (Elem (LeafOf f))) → Standing f t.now es (take members places.now) → Cutting (pair_of f es (list_of f integers.now floats.now)) (blocks_in (take count blocks.now)) (length integers.now + length floats.now) (is_some result) (bytes_of result) }
{
    if is_plain(blocks, count) {
        return plain_first(t, places, members, count, integers, floats);
    }
    let mut joined: [u32; 32] = [0; 32];
    let many = join_runs(blocks, count, &mut joined);
    first_by_places(t, places, members, &joined, many, integers, floats)
}
