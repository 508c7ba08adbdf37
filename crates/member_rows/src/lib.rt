// Which member of a template matches which element of a list.
#![tactic(auto)]

ghost use Rattle.std.specs.Prelude.{Bool, true, List, ℕ, ◌≡◌, ◌+◌, ◌*◌, ◌/◌, ◌≤◌, ◌<◌, length, get_or, take};
ghost use Rattle.grammar.specs.Element.{Elem};
ghost use Rattle.std.specs.Float.{nan};
ghost use Rattle.format.specs.declared.Family.{Family};
ghost use Rattle.floats.specs.Leaves.{float_matches};
ghost use Rattle.grammar.specs.Family.{LeafOf, list_of, Lent};
ghost use Rattle.grammar.specs.Blocks.{Standing};
ghost use Rattle.masks.specs.Masks.{bit};
ghost use Rattle.member_rows.specs.Contract.{RowsOf};
ghost use Rattle.member_rows.specs.Places.{Served, Widened, Marks, Marked, Added, MarkedWithin, MarkedBy, MembersMarked, Cleared};

use element_match::hits;
use floats::{Leaf, leaf_hit};
use format::{ANY, COMPLEMENT, LIST_MOST};
use integers::within;
use leaves::{bounds_at, float_leaf_at};
use masks::{lowest, span, with, without_lowest};

// The list, with elements after it so that there are 32.
pub fn widened(integers: &[i32]) -> [i32; 32]
    requires { length integers.now ≤ 32 }
    ensures { Widened integers.now result }
{
    let mut wide = [0i32; 32];
    wide[..integers.len()].copy_from_slice(integers);
    wide
}

// Puts member m into the rows of those elements that pass the test. Each row is written, changed or not, so that the compiler takes several at a time.
fn mark_passing<T: Copy, F: Fn(T) -> bool>(rows: &mut [u32; 32], m: u8, elements: &[T], test: F)
    requires fits { (length rows.old ≡ 32) × (m < 32) × (length elements.now ≤ 32) }
    requires callable { F.IsAlwaysCallable test }
    ensures { (passes : ℕ → Bool) × Marked rows.old m passes (length elements.now) rows.new × ((e : ℕ) (d : T) → e < length elements.now → F.post test (get_or elements.now e d) (passes e)) }
{
    for e in 0..elements.len() {
        let row = rows[e];
        rows[e] = if test(elements[e]) { with(row, m) } else { row };
    }
}

// Puts member m into the first n rows, of those elements that lie between the bounds, both ends included.
fn mark_within(rows: &mut [u32; 32], m: u8, wide: &[i32; 32], n: usize, lower: i32, upper: i32)
    requires { (length rows.old ≡ 32) × (m < 32) × (n ≤ 32) }
    ensures { MarkedWithin rows.old m wide.now lower upper n rows.new }
{
    mark_passing(rows, m, &wide[..n], |x| within(x, lower, upper));
}

// Puts member m into the first n rows.
fn mark_all(rows: &mut [u32; 32], m: u8, n: usize)
    requires { (length rows.old ≡ 32) × (m < 32) × (n ≤ 32) }
    ensures { Added rows.old m (λ e. true) n rows.new }
{
    for e in 0..n {
        let row = rows[e];
        rows[e] = with(row, m);
    }
}

// Puts member m into the rows of those floats that the leaf matches.
fn mark_floats(rows: &mut [u32; 32], m: u8, floats: &[f64], l: Leaf)
    requires { (length rows.old ≡ 32) × (m < 32) × (length floats.now ≤ 32) }
    ensures { Added rows.old m (λ e. float_matches l (get_or floats.now e nan)) (length floats.now) rows.new }
{
    mark_passing(rows, m, floats, |x| leaf_hit(l, x));
}

// Puts member m into the rows of these elements.
fn mark_hits(rows: &mut [u32; 32], m: u8, elements: u32)
    requires { (length rows.old ≡ 32) × (m < 32) }
    ensures { Added rows.old m (bit elements) 32 rows.new }
{
    let mut left = elements;
    // No `for`: this goes from bit to bit of a mask, and counts nothing.
    while left != 0 {
        let e = lowest(left);
        left = without_lowest(left);
        let row = rows[e as usize];
        rows[e as usize] = with(row, m);
    }
}

// How many rows n elements take, in eights: so many the compiler takes at a time.
fn in_eights(n: usize) -> usize
    requires { n ≤ 32 }
    ensures { result ≡ (n + 7) / 8 * 8 }
{
    (n + 7) / 8 * 8
}

// Puts member m into the rows of the elements that the element template at `at` matches. What stands in the rows after the list is open.
fn mark(
    rows: &mut [u32; 32],
    m: u8,
    t: &[u8],
    at: usize,
    integers: &[i32],
    floats: &[f64],
    wide: &[i32; 32],
)
    requires { (length rows.old ≡ 32) × (m < 32) × Marks t.now at integers.now floats.now wide.now }
    ensures { (f : Family) → Lent f integers.now floats.now → MarkedBy f rows.old m t.now at (list_of f integers.now floats.now) (length (list_of f integers.now floats.now)) rows.new }
{
    let n = integers.len() + floats.len();
    let kind = t[at];
    if kind < ANY {
        let b = bounds_at(t, at);
        let lines = in_eights(n);
        if lines == LIST_MOST {
            // The same, with a constant number of rows: the compiler then leaves no loop.
            mark_within(rows, m, wide, LIST_MOST, b.lower, b.upper);
            return;
        }
        mark_within(rows, m, wide, lines, b.lower, b.upper);
        return;
    }
    if kind == ANY {
        mark_all(rows, m, in_eights(n));
        return;
    }
    if COMPLEMENT < kind {
        mark_floats(rows, m, floats, float_leaf_at(t, at));
        return;
    }
    let elements = hits(t, at, integers, floats, span(0, n as u8));
    mark_hits(rows, m, elements)
}

// Puts the members first .. end - 1 into the rows of the elements that each matches. What stands in the rows after the list is open.
pub fn mark_members(
    rows: &mut [u32; 32],
    t: &[u8],
    places: &[u16; 32],
    first: usize,
    end: usize,
    integers: &[i32],
    floats: &[f64],
    wide: &[i32; 32],
)
    requires { (length rows.old ≡ 32) × Served t.now places.now end integers.now floats.now × (first ≤ end) × Widened integers.now wide.now }
    ensures { (f : Family) → Lent f integers.now floats.now → MembersMarked f rows.old t.now places.now first end (list_of f integers.now floats.now) rows.new }
{
    for m in first..end {
        let at = places[m] as usize;
        mark(rows, m as u8, t, at, integers, floats, wide);
    }
}

// No member in the rows from n on.
fn clear_after(rows: &mut [u32; 32], n: usize)
    requires { (length rows.old ≡ 32) × (n ≤ 32) }
    ensures { Cleared n rows.old rows.new }
{
    rows[n..].fill(0);
}

// Bit m of row e says whether the member at `places[m]` matches element e of the list.
pub fn rows_of(
    t: &[u8],
    places: &[u16; 32],
    members: usize,
    integers: &[i32],
    floats: &[f64],
) -> [u32; 32]
    requires { Served t.now places.now members integers.now floats.now }
    ensures { (f : Family) → Lent f integers.now floats.now → (es : List (Elem (LeafOf f))) → Standing f t.now es (take members places.now) → RowsOf f es (list_of f integers.now floats.now) result }
{
    let wide = widened(integers);
    let mut rows: [u32; 32] = [0; 32];
    mark_members(&mut rows, t, places, 0, members, integers, floats, &wide);
    clear_after(&mut rows, integers.len() + floats.len());
    rows
}
