// The items of a body, with the places of its members and its blocks. What is answered says the place after them and how many members they have.
ghost use Rattle.std.specs.Prelude.{◌≡◌, ◌≤◌, eqb, length, drop, replicate};
ghost use Rattle.sorts.specs.Sorts.{family_of, leaves_for};
ghost use Rattle.grammar.specs.Template.{no_star};
ghost use Rattle.grammar.specs.Whole.{members, items, contents};
ghost use Rattle.elements.specs.Contract.{fault_in, place_in, count_in, Place, Noted};
ghost use Rattle.template.specs.Bodies.{RecordNotes, SetNotes, BodyNotes};

use blocks::{Block, block_of, number_of};
use format::{FAULT, INFINITY, ONE_MORE, RECORD_OF, SET_OF, SUPERSET};
use items::group::group_end;
use items::item::item_end;
use sorts::Sort;

// The n items of a record of at `at`: a block for each.
fn items_end(
    t: &[u8],
    at: usize,
    n: usize,
    sort: Sort,
    places: &mut [u16; 32],
    blocks: &mut [u32; 32],
) -> usize
    requires { Place t.now at × (n ≤ 32) × (length places.old ≡ 32) × (blocks.old ≡ replicate 32 0) }
    ensures { Noted (RecordNotes (family_of sort) t.now n (count_in result) blocks.new places.new) t.now (items (leaves_for sort) n 0 (drop at t.now)) (fault_in result) (place_in result) }
{
    let mut p = at;
    let mut m: usize = 0;
    for k in 0..n {
        let mut number: u32 = 0;
        p = item_end(t, p, m, sort, places, &mut number);
        if FAULT < p {
            return p;
        }
        blocks[k] = number;
        let b = block_of(number);
        m += b.k as usize;
    }
    p + m * ONE_MORE
}

// The n items of a set of, superset or subset at `at`: they are one block.
fn set_end(
    t: &[u8],
    at: usize,
    kind: u8,
    n: usize,
    sort: Sort,
    places: &mut [u16; 32],
    blocks: &mut [u32; 32],
) -> usize
    requires { Place t.now at × (0x11 ≤ kind) × (kind ≤ 0x13) × (length places.old ≡ 32) × (blocks.old ≡ replicate 32 0) }
    ensures { Noted (SetNotes (family_of sort) t.now kind n (count_in result) blocks.new places.new) t.now (members (leaves_for sort) (eqb kind 0x11) n 0 no_star (drop at t.now)) (fault_in result) (place_in result) }
{
    let mut number: u32 = 0;
    let end = group_end(t, at, n, 0, kind == SET_OF, sort, places, &mut number);
    if FAULT < end {
        return end;
    }
    let b = block_of(number);
    let max = if kind == SUPERSET { INFINITY } else { b.max };
    blocks[0] = number_of(Block {
        first: 0,
        k: b.k,
        min: b.min,
        max,
    });
    end + b.k as usize * ONE_MORE
}

// What follows the record of a body of this kind with n items.
pub fn contents_end(
    t: &[u8],
    at: usize,
    kind: u8,
    n: usize,
    sort: Sort,
    places: &mut [u16; 32],
    blocks: &mut [u32; 32],
) -> usize
    requires { Place t.now at × (0x10 ≤ kind) × (kind ≤ 0x13) × (n ≤ 32) × (length places.old ≡ 32) × (blocks.old ≡ replicate 32 0) }
    ensures { Noted (BodyNotes (family_of sort) t.now kind n (count_in result) blocks.new places.new) t.now (contents (leaves_for sort) kind n (drop at t.now)) (fault_in result) (place_in result) }
{
    if kind == RECORD_OF {
        return items_end(t, at, n, sort, places, blocks);
    }
    set_end(t, at, kind, n, sort, places, blocks)
}
