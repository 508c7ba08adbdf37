// The items of a record of, with their blocks.
ghost use Rattle.std.specs.Prelude.{◌≡◌, List, false, ℕ, ◌≤◌, length, drop};
ghost use Rattle.format.specs.declared.Family.{Family};
ghost use Rattle.grammar.specs.Read.{map_read};
ghost use Rattle.sorts.specs.Sorts.{family_of, leaves_for};
ghost use Rattle.grammar.specs.Whole.{as_spares, star_here, permutation_here, item};
ghost use Rattle.elements.specs.Contract.{fault_in, Place, Noted};
ghost use Rattle.items.specs.Notes.{ItemNotes};

use crate::group::{group_end, integer_member_end, other_member_end, star_end};
use crate::record::kind_at;
use blocks::{Block, number_of};
use elements::{count_fault, refusal};
use format::{COUNT_SIZE, DONE, FAULT, ITEMS_MOST, PERMUTATION, STARS};
use sorts::{Sort, WHOLE};

// The place after the 20 that stands as an item at `at`, with m members before it, or its fault.
fn spares_end(t: &[u8], at: usize, m: usize, block: &mut u32) -> usize
    requires { Place t.now at × (m ≤ 32) }
    ensures { (f : Family) (places : List ℕ) → Noted (ItemNotes f t.now m places block.new places) t.now (map_read as_spares (star_here false (drop at t.now))) (fault_in result) result }
{
    let end = star_end(t, at, false);
    if FAULT < end {
        return end;
    }
    *block = number_of(Block {
        first: m as u8,
        k: 0,
        min: t[at + 1],
        max: t[at + 2],
    });
    end
}

// The place after the permutation at `at`, with m members before it, or its refusal.
fn permutation_end(
    t: &[u8],
    at: usize,
    m: usize,
    sort: Sort,
    places: &mut [u16; 32],
    block: &mut u32,
) -> usize
    requires { Place t.now at × (m ≤ 32) × (length places.old ≡ 32) }
    ensures { Noted (ItemNotes (family_of sort) t.now m places.old block.new places.new) t.now (permutation_here (leaves_for sort) m (drop at t.now)) (fault_in result) result × (length places.new ≡ 32) }
{
    let code = count_fault(t, at, 1, ITEMS_MOST);
    if code != DONE {
        return refusal(code);
    }
    group_end(
        t,
        at + COUNT_SIZE,
        t[at + 1] as usize,
        m,
        true,
        sort,
        places,
        block,
    )
}

// The place after the item of a record of at `at`, with m members before it, or its refusal. Its block is noted.
pub fn item_end(
    t: &[u8],
    at: usize,
    m: usize,
    sort: Sort,
    places: &mut [u16; 32],
    block: &mut u32,
) -> usize
    requires { Place t.now at × (m ≤ 32) × (length places.old ≡ 32) }
    ensures { Noted (ItemNotes (family_of sort) t.now m places.old block.new places.new) t.now (item (leaves_for sort) m (drop at t.now)) (fault_in result) result × (length places.new ≡ 32) }
{
    let kind = kind_at(t, at);
    if STARS <= kind {
        if kind == STARS {
            return spares_end(t, at, m, block);
        }
        if kind == PERMUTATION {
            return permutation_end(t, at, m, sort, places, block);
        }
    }
    *block = number_of(Block {
        first: m as u8,
        k: 1,
        min: 0,
        max: 0,
    });
    if sort.word == WHOLE {
        return integer_member_end(t, at, m, places);
    }
    other_member_end(t, at, m, sort, places)
}
