// Every kind of record, every number given back and every limit of docs/RULES.md, once; how a scan answers in one number; and
// the test of the two bounds of a 20 or a 30.
#![tactic(auto)]

ghost use Rattle.std.specs.Prelude.{◌≡◌};
ghost use Rattle.format.specs.Bounds.{bad_bounds};

// ---- the families: what the elements of a list are, and the leaves of its template
#[derive(Clone, Copy)]
pub enum Family {
    Integers,
    Floats,
}

// ---- kinds of records: element templates, bodies, items, the length attribute, the element type, the sheet
pub const SINGLE: u8 = 0x01;

pub const RANGE: u8 = 0x02;

pub const ANY: u8 = 0x03;

pub const LIST: u8 = 0x04;

pub const COMPLEMENT: u8 = 0x05;

pub const FLOAT: u8 = 0x06;

pub const FLOAT_RANGE: u8 = 0x07;

pub const RECORD_OF: u8 = 0x10;

pub const SET_OF: u8 = 0x11;

pub const SUPERSET: u8 = 0x12;

pub const SUBSET: u8 = 0x13;

pub const STARS: u8 = 0x20;

pub const PERMUTATION: u8 = 0x21;

pub const LENGTH: u8 = 0x30;

pub const TYPE: u8 = 0x31;

pub const SHEET: u8 = 0x32;

// ---- kinds of the program's input
pub const VALUES: u8 = 0x40;

pub const TEMPLATE: u8 = 0x50;

// ---- bytes of a record, its kind and its body: a record with a count is one of 04, 05, 10 to 13, 21 and 40, one with bounds a 20 or a 30
pub const SINGLE_SIZE: usize = 5;

pub const RANGE_SIZE: usize = 9;

pub const ANY_SIZE: usize = 1;

pub const FLOAT_SIZE: usize = 9;

pub const FLOAT_RANGE_SIZE: usize = 17;

pub const COUNT_SIZE: usize = 2;

pub const BOUNDS_SIZE: usize = 3;

pub const TYPE_SIZE: usize = 9;

pub const SHEET_SIZE: usize = 2;

pub const TEMPLATE_SIZE: usize = 3;

// ---- numbers given back. 0 says that nothing is at fault: matched, obeys, done, or accepted so far
pub const DONE: u8 = 0;

pub const NO_MATCH: u8 = 1;

pub const TOO_LONG: u8 = 2;

pub const MISSING: u8 = 3;

pub const BAD_KIND: u8 = 4;

pub const BAD_COUNT: u8 = 5;

pub const BAD_BOUNDS: u8 = 6;

pub const TOO_DEEP: u8 = 7;

pub const TOO_MANY: u8 = 8;

pub const LENGTH_CLASH: u8 = 9;

pub const LEFT_OVER: u8 = 10;

pub const LIST_TOO_LONG: u8 = 11;

pub const ROOM_TOO_SHORT: u8 = 12;

pub const OTHER_LENGTH: u8 = 13;

pub const NOT_A_NUMBER: u8 = 14;

pub const NO_NORMAL_FORM: u8 = 15;

pub const LEAF_OUTSIDE: u8 = 16;

pub const ELEMENT_OUTSIDE: u8 = 17;

pub const BAD_SHEET: u8 = 20;

// ---- limits. Leaves and members are numbered from 0, so the last of 64 leaves is 63 and the last of 32 members 31
pub const TEMPLATE_MOST: usize = 4096;

pub const INPUT_MOST: usize = 65536;

pub const LIST_MOST: usize = 32;

// The same as a byte: of min and max, and of n in a list of the input.
pub const LENGTH_MOST: u8 = 32;

pub const ITEMS_MOST: u8 = 32;

pub const GROUP_MOST: u8 = 64;

pub const DEPTH_MOST: usize = 8;

// A byte of a witness below it is a member.
pub const MEMBERS_MOST: u8 = 32;

pub const LAST_LEAF: usize = 63;

// Of a normal form, and the bytes that it has at most.
pub const FORM_LEAVES_MOST: usize = 64;

pub const FORM_MOST: usize = 578;

pub const LAST_MEMBER: usize = 31;

// ---- bytes with a meaning of their own: no bound above, an element that no member has, the sheets, and the kind that a plan has for a subset that
// sheet 1 reads, which is no record's
pub const INFINITY: u8 = 255;

pub const SPARE: u8 = 255;

pub const PLAIN_SHEET: u8 = 1;

pub const LAST_SHEET: u8 = 2;

pub const CONTAINMENT: u8 = 0x14;

// ---- what a scan answers, in one number: a place and, ONE_MORE for each, what was counted up to it; or above FAULT a refusal's number
pub const ONE_MORE: usize = 0x1_0000;

pub const FAULT: usize = 0xff_ffff;

// ---- the ends of the 32-bit integers
pub const LEAST: i32 = -2147483648;

pub const GREATEST: i32 = 2147483647;

// Whether min or max of a 20 or a 30 is outside its range, or min is above max.
pub fn bad_bounds(min: u8, max: u8) -> bool
    ensures { result ≡ bad_bounds min max }
{
    (LENGTH_MOST < min) | (((LENGTH_MOST < max) & (max != INFINITY)) | (max < min))
}
