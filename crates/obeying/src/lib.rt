// What the body of a template asks of an offered witness whose pairs are right. It uses nothing of the search.
#![tactic(auto)]

ghost use Rattle.std.specs.Prelude.{◌&&◌, ◌≡◌, ◌+◌, ◌≤◌, eqb, leb, length, take};
ghost use Rattle.blocks.specs.Numbers.{blocks_in};
ghost use Rattle.blocks.specs.Pieces.{Inside};
ghost use Rattle.grammar.specs.Template.{Body, Heads};
ghost use Rattle.format.specs.declared.Family.{Family};
ghost use Rattle.grammar.specs.Family.{LeafOf};
ghost use Rattle.matching.specs.Obeys.{body_met};
ghost use Rattle.obeying.specs.Spread.{Says, Spread};

use blocks::{Block, block_at};
use format::{RECORD_OF, SUBSET};
use judging::{cut_passes, none_spare};
use plain::{counts_up, is_plain};

// Whether no member is left over, and the spare ones of n elements are as many as the block allows.
fn one_met(b: Block, left: u64, n: usize) -> bool
    requires { n ≤ 32 }
    ensures { result ≡ (eqb left 0 && (leb (b.k + b.min) n && leb n (b.k + b.max))) }
{
    let k = b.k as usize;
    (left == 0) & ((k + b.min as usize <= n) & (n <= k + b.max as usize))
}

// Whether w, whose pairs are right and which leaves these members over, meets what a body of this kind asks besides: a record of by its blocks (by
// plain ones one list only is cut), a set of or a superset by its one block, which has all members, a subset by no spare element.
pub fn body_met(kind: u8, blocks: &[u32; 32], count: usize, left: u64, w: &[u8]) -> bool
    requires { (count ≤ 32) × (length w.now ≤ 32) × Inside (blocks_in (take count blocks.now)) }
    ensures { (f : Family) (h : Heads) (b : Body (LeafOf f)) → Says kind (blocks_in (take count blocks.now)) h b → Spread b w.now left → result ≡ body_met b w.now }
{
    if SUBSET <= kind {
        return none_spare(w);
    }
    if kind == RECORD_OF {
        if is_plain(blocks, count) {
            return counts_up(w, count);
        }
        return cut_passes(blocks, count, w);
    }
    one_met(block_at(blocks, 0), left, w.len())
}
