// What stands before the items of a template: its heads, and the record of its body.
#![tactic(auto)]

ghost use Rattle.std.specs.Prelude.{◌≡◌, ◌≤◌, ◌<◌, length, drop};
ghost use Rattle.format.specs.declared.Family.{Family};
ghost use Rattle.grammar.specs.Family.{has_types};
ghost use Rattle.grammar.specs.Record.{kind_of, sheet_fault, type_fault};
ghost use Rattle.grammar.specs.Template.{Heads as HeadsRead, no_heads};
ghost use Rattle.grammar.specs.Whole.{fewest, clashes, sheet_here, length_here, type_here, rest_here, heads_here};
ghost use Rattle.heads.specs.Fronts.{sheet_for, length_of, refused_heads, Said, NoHeads, HeadsAt, Begun, own_fault};

use elements::count_fault;
use format::{
    BAD_BOUNDS, BAD_KIND, BAD_SHEET, BOUNDS_SIZE, DONE, Family, INFINITY, ITEMS_MOST, LAST_SHEET,
    LENGTH, LENGTH_CLASH, MISSING, PLAIN_SHEET, RECORD_OF, SHEET, SHEET_SIZE, SUBSET, SUPERSET,
    TYPE, TYPE_SIZE,
};
use integers::int_at;
use items::record::{bounds_fault, kind_at};
use sorts::{Sort, typed, untyped};

// The heads of a template: their fault, or 0; the place after them; whether sheet 1 reads a subset plainly; the length attribute, where one is given; the sort
// of the leaves.
#[derive(Clone, Copy)]
pub struct Heads {
    pub code: u8,
    pub next: usize,
    pub plain: bool,
    pub given: bool,
    pub min: u8,
    pub max: u8,
    pub sort: Sort,
}

// Whether a template of this family may have a type.
fn has_types(family: Family) -> bool
    ensures { result ≡ has_types family }
{
    match family {
        Family::Integers => true,
        Family::Floats => false,
    }
}

// The fault of the record at `at`, whose body is the lower and the upper bound of a type.
fn type_fault(t: &[u8], at: usize) -> u8
    requires { at ≤ length t.now }
    ensures { result ≡ type_fault (drop at t.now) }
{
    if t.len() - at < TYPE_SIZE {
        return MISSING;
    }
    if int_at(t, at + 5) < int_at(t, at + 1) {
        return BAD_BOUNDS;
    }
    DONE
}

// What holds where no head stands.
fn no_heads(family: Family) -> Heads
    ensures { NoHeads family result }
{
    Heads {
        code: DONE,
        next: 0,
        plain: false,
        given: false,
        min: 0,
        max: INFINITY,
        sort: untyped(family),
    }
}

// Heads that are refused with this number.
fn refused_heads(code: u8) -> Heads
    ensures { result ≡ refused_heads code }
{
    Heads {
        code,
        next: 0,
        plain: false,
        given: false,
        min: 0,
        max: 0,
        sort: Sort { word: 0 },
    }
}

// The fault of the record at the front of t, whose body is the number of a sheet.
fn sheet_fault(t: &[u8]) -> u8
    ensures { result ≡ sheet_fault t.now }
{
    if t.len() < SHEET_SIZE {
        return MISSING;
    }
    if (t[1] < PLAIN_SHEET) | (LAST_SHEET < t[1]) {
        return BAD_SHEET;
    }
    DONE
}

// The sheet at the front of t, where there is one.
fn sheet_head(t: &[u8], family: Family) -> Heads
    ensures { HeadsAt family t.now (sheet_here no_heads t.now) result }
{
    if kind_at(t, 0) != SHEET {
        return no_heads(family);
    }
    let code = sheet_fault(t);
    if code != DONE {
        return refused_heads(code);
    }
    Heads {
        next: SHEET_SIZE,
        plain: t[1] == PLAIN_SHEET,
        ..no_heads(family)
    }
}

// The heads h, with the length attribute where one stands after them.
fn length_head(t: &[u8], h: Heads) -> Heads
    requires { Begun t.now h }
    ensures { (f : Family) (a : HeadsRead) → Said f a h → HeadsAt f t.now (length_here a (drop h.next t.now)) result }
{
    let at = h.next;
    if kind_at(t, at) != LENGTH {
        return h;
    }
    let code = bounds_fault(t, at);
    if code != DONE {
        return refused_heads(code);
    }
    Heads {
        next: at + BOUNDS_SIZE,
        given: true,
        min: t[at + 1],
        max: t[at + 2],
        ..h
    }
}

// The heads h of a template of integers, with the type that stands after them.
fn type_head(t: &[u8], h: Heads) -> Heads
    requires { (h.next ≤ length t.now) × (length t.now < 65536) × (kind_of (drop h.next t.now) ≡ 0x31) }
    ensures { (a : HeadsRead) → Said Family.Integers a h → HeadsAt Family.Integers t.now (type_here Family.Integers a (drop h.next t.now)) result }
{
    let at = h.next;
    let code = type_fault(t, at);
    if code != DONE {
        return refused_heads(code);
    }
    let sort = typed(int_at(t, at + 1), int_at(t, at + 5));
    Heads {
        code: DONE,
        next: at + TYPE_SIZE,
        sort,
        ..h
    }
}

// The heads h, with the length attribute and the type that stand after them.
fn rest_heads(t: &[u8], family: Family, h: Heads) -> Heads
    requires { Begun t.now h }
    ensures { (a : HeadsRead) → Said family a h → HeadsAt family t.now (rest_here family a (drop h.next t.now)) result }
{
    let g = length_head(t, h);
    if g.code != DONE {
        return g;
    }
    if kind_at(t, g.next) != TYPE {
        return g;
    }
    if has_types(family) {
        return type_head(t, g);
    }
    g
}

// The heads of a template that begins with one.
fn some_heads(t: &[u8], family: Family) -> Heads
    requires { length t.now < 65536 }
    ensures { HeadsAt family t.now (heads_here family t.now) result }
{
    let h = sheet_head(t, family);
    if h.code != DONE {
        return h;
    }
    rest_heads(t, family, h)
}

// The heads of the template at the front of t. Most templates have none.
pub fn heads_of(t: &[u8], family: Family) -> Heads
    requires { length t.now < 65536 }
    ensures { HeadsAt family t.now (heads_here family t.now) result }
{
    if kind_at(t, 0) < LENGTH {
        return no_heads(family);
    }
    some_heads(t, family)
}

// Row 9, for a body of this kind with n members.
fn length_clashes(heads: Heads, kind: u8, n: u8) -> bool
    ensures { result ≡ clashes (sheet_for heads.plain) (length_of heads.given heads.min heads.max) kind n }
{
    if !heads.given {
        return false;
    }
    let min = heads.min;
    let max = heads.max;
    ((kind == SUPERSET) & (min < n)) | ((kind == SUBSET) & (!heads.plain & (n < max)))
}

fn fewest_items(kind: u8) -> u8
    ensures { result ≡ fewest kind }
{
    if kind < SUPERSET { 0 } else { 1 }
}

// The fault of the body's record after these heads, or 0.
pub fn body_fault(t: &[u8], heads: Heads) -> u8
    requires { heads.next ≤ length t.now }
    ensures { result ≡ own_fault (sheet_for heads.plain) (length_of heads.given heads.min heads.max) (drop heads.next t.now) }
{
    let at = heads.next;
    if at == t.len() {
        return MISSING;
    }
    let kind = t[at];
    if kind < RECORD_OF {
        return BAD_KIND;
    }
    if SUBSET < kind {
        return BAD_KIND;
    }
    let code = count_fault(t, at, fewest_items(kind), ITEMS_MOST);
    if code != DONE {
        return code;
    }
    if length_clashes(heads, kind, t[at + 1]) {
        return LENGTH_CLASH;
    }
    DONE
}
