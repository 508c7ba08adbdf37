// Records of element templates only: the search and the judge look for them first.
#![tactic(auto)]

ghost use Rattle.std.specs.Prelude.{◌≡◌, ◌≤◌, ◌<◌, length};
ghost use Rattle.blocks.specs.Numbers.{block, block_in};
ghost use Rattle.blocks.specs.Pieces.{Passing};
ghost use Rattle.plain.specs.Plain.{Plain, up_from};

// The number of the block that is the member 0, and no spare element; that of the member m is m more.
const FIRST_ONE: u32 = 256;

// Whether the block with this number is the member m, and no spare element.
fn is_member(number: u32, m: usize) -> bool
    requires { m < 32 }
    ensures { Passing (block_in number ≡ block m 1 0 0) result }
{
    number == FIRST_ONE + m as u32
}

// Whether each of the first `count` blocks is one member and no spare element, and their members are 0, 1 and so on. All blocks are looked at, so that the
// compiler takes several at a time.
pub fn is_plain(blocks: &[u32; 32], count: usize) -> bool
    requires { count ≤ 32 }
    ensures { Passing (Plain count blocks.now) result }
{
    let mut plain = true;
    for (j, &number) in blocks[..count].iter().enumerate() {
        plain &= is_member(number, j);
    }
    plain
}

// Whether w is the numbers 0, 1 and so on, `count` of them. All bytes are looked at, as above.
pub fn counts_up(w: &[u8], count: usize) -> bool
    requires { length w.now ≤ 32 }
    ensures { Passing (w.now ≡ up_from 0 count) result }
{
    let mut up = w.len() == count;
    for (e, &x) in w.iter().enumerate() {
        up &= x == e as u8;
    }
    up
}
