// One record with a min and a max, and the kind at a place.
ghost use Rattle.std.specs.Prelude.{◌≡◌, ◌≤◌, length, drop};
ghost use Rattle.grammar.specs.Record.{kind_of, bounds_fault};

use format::{BAD_BOUNDS, BOUNDS_SIZE, DONE, MISSING, bad_bounds};

// The kind at `at`, or 0, which is no kind, where the bytes end.
pub fn kind_at(t: &[u8], at: usize) -> u8
    ensures { result ≡ kind_of (drop at t.now) }
{
    if at < t.len() { t[at] } else { 0 }
}

// The fault of the record at `at`, whose body is min and max.
pub fn bounds_fault(t: &[u8], at: usize) -> u8
    requires { at ≤ length t.now }
    ensures { result ≡ bounds_fault (drop at t.now) }
{
    if t.len() - at < BOUNDS_SIZE {
        return MISSING;
    }
    if bad_bounds(t[at + 1], t[at + 2]) {
        return BAD_BOUNDS;
    }
    DONE
}
