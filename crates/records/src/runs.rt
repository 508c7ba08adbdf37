// Runs of 20s as one 20: what several take one after the other, one takes.
ghost use Rattle.std.specs.Prelude.{◌≡◌, ℕ, ◌+◌, ◌≤◌, min, length, take};
ghost use Rattle.blocks.specs.Numbers.{block_in, blocks_in};
ghost use Rattle.records.specs.Records.{Below};
ghost use Rattle.records.specs.Runs.{joinable, in_one, RunsJoined};

use blocks::{Block, block_of, number_of};
use format::LIST_MOST;
use masks::lesser;

// The number of a block with a member: no run goes on from it.
const NO_RUN: u32 = 256;

// Whether two blocks, one after the other, take what one 20 takes.
fn joins(before: u32, number: u32) -> bool
    ensures { result ≡ joinable (block_in before) (block_in number) }
{
    let a = block_of(before);
    let b = block_of(number);
    ((a.k == 0) & (b.k == 0)) & ((a.min <= a.max) & (b.min <= b.max))
}

// Two numbers of spare elements together; any that is more than a list has is one.
fn together(x: u8, y: u8) -> u8
    ensures { result ≡ min (x + y) 33 }
{
    lesser(x as usize + y as usize, LIST_MOST + 1) as u8
}

// The number of that 20.
fn in_one(before: u32, number: u32) -> u32
    ensures { block_in result ≡ in_one (block_in before) (block_in number) }
{
    let a = block_of(before);
    let b = block_of(number);
    let min = together(a.min, b.min);
    let max = together(a.max, b.max);
    number_of(Block {
        first: a.first,
        k: 0,
        min,
        max,
    })
}

// The first `count` blocks, with each run of 20s as one, and how many they are then.
pub fn join_runs(blocks: &[u32; 32], count: usize, joined: &mut [u32; 32]) -> usize
    requires { (count ≤ 32) × (length joined.old ≡ 32) }
    ensures { (k : ℕ) → Below k (blocks_in (take count blocks.now)) → RunsJoined k count blocks.now result joined.new }
{
    let mut r: usize = 0;
    let mut before = NO_RUN;
    for &number in &blocks[..count] {
        if joins(before, number) {
            before = in_one(before, number);
            joined[r - 1] = before;
        } else {
            before = number;
            joined[r] = number;
            r += 1;
        }
    }
    r
}
