// The first witness in byte order, by the parts of a plan: a record of from its bytes, every other body by the rows.
#![tactic(auto)]

ghost use Rattle.std.specs.Prelude.{List, [], ◌∷◌, ◌+◌, ◌≤◌, length, take, is_some};
ghost use Rattle.grammar.specs.Element.{Elem};
ghost use Rattle.format.specs.declared.Family.{Family};
ghost use Rattle.grammar.specs.Family.{LeafOf, list_of, Lent};
ghost use Rattle.grammar.specs.Blocks.{Standing};
ghost use Rattle.rows.specs.Rows.{may};
ghost use Rattle.blocks.specs.Numbers.{blocks_in};
ghost use Rattle.blocks.specs.Pieces.{Best, Cutting, bytes_of};
ghost use Rattle.member_rows.specs.Places.{Served};
ghost use Rattle.member_rows.specs.Contract.{pair_of};
ghost use Rattle.records.specs.Records.{Below};
ghost use Rattle.witnesses.specs.ByKind.{Allows, OneBlock};

use assign::first_assignment;
use blocks::{Block, block_at};
use fillings::first_filling;
use format::{CONTAINMENT, RECORD_OF, SUBSET};
use member_rows::rows_of;
use records::first_in_record;
use sheets::first_containment;

// The first cut of n elements by one block: what it takes of them all.
fn first_of_block(rows: &[u32; 32], b: Block, n: u8) -> Option<[u8; 32]>
    requires { (b.first + b.k ≤ 32) × (n ≤ 32) }
    ensures { Cutting (may rows.now) (b ∷ []) n (is_some result) (bytes_of result) }
{
    let size = n as usize;
    let least = b.k as usize + b.min as usize;
    let most = b.k as usize + b.max as usize;
    if (size < least) | (most < size) {
        return None;
    }
    first_assignment(rows, b.first, b.k, 0, n)
}

// The first assignment of the list in byte order that a body of this kind takes.
pub fn first_witness(
    t: &[u8],
    places: &[u16; 32],
    members: usize,
    kind: u8,
    blocks: &[u32; 32],
    count: usize,
    integers: &[i32],
    floats: &[f64],
) -> Option<[u8; 32]>
    requires { Served t.now places.now members integers.now floats.now × (count ≤ 32) × Below members (blocks_in (take count blocks.now)) × OneBlock kind count blocks.now }
    ensures { (f : Family) → Lent f integers.now floats.now → (es : List (Elem (LeafOf f))) → Standing f t.now es (take members places.now) → Best (Allows kind (blocks_in (take count blocks.now)) members (pair_of f es (list_of f integers.now floats.now)) (length integers.now + length floats.now)) (length integers.now + length floats.now) (is_some result) (bytes_of result) }
{
    if kind == RECORD_OF {
        return first_in_record(t, places, members, blocks, count, integers, floats);
    }
    let rows = rows_of(t, places, members, integers, floats);
    let n = (integers.len() + floats.len()) as u8;
    if kind == SUBSET {
        return first_filling(&rows, members as u8, n);
    }
    if kind == CONTAINMENT {
        return first_containment(&rows, members as u8, n);
    }
    let b = block_at(blocks, 0);
    first_of_block(&rows, b, n)
}
