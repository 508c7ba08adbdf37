// Four bytes and a 32-bit integer: two's complement, low byte first.
#![tactic(auto)]

ghost use Rattle.std.specs.Prelude.{◌≡◌, ◌&&◌, ◌++◌, ◌+◌, ◌≤◌, length, drop};
ghost use Rattle.std.specs.Int.Signed.{le_z};
ghost use Rattle.integers.specs.Integer.{joined, signed, bits_at, int_at, bits, int_bytes, eq_z};

// The number that four bytes say with no sign. By shifts, as docs/FORMS.md has it.
pub fn join_bytes(b0: u8, b1: u8, b2: u8, b3: u8) -> u32
    ensures { result ≡ joined b0 b1 b2 b3 }
{
    (b0 as u32) | (b1 as u32) << 8 | (b2 as u32) << 16 | (b3 as u32) << 24
}

// The integer whose bits are those of u.
pub fn to_signed(u: u32) -> i32
    ensures { result ≡ signed u }
{
    u.cast_signed()
}

// The bits of x.
pub fn to_bits(x: i32) -> u32
    ensures { result ≡ bits x }
{
    x.cast_unsigned()
}

// The number that the four bytes of s from `at` on say with no sign.
pub fn bits_at(s: &[u8], at: usize) -> u32
    requires { at + 4 ≤ length s.now }
    ensures { result ≡ bits_at s.now at }
{
    join_bytes(s[at], s[at + 1], s[at + 2], s[at + 3])
}

// The integer whose four bytes stand in s from `at` on.
pub fn int_at(s: &[u8], at: usize) -> i32
    requires { at + 4 ≤ length s.now }
    ensures { result ≡ int_at s.now at }
{
    to_signed(bits_at(s, at))
}

// Writes x as the first four bytes of `out`, split by shifts as docs/FORMS.md has it; no other byte changes.
pub fn put_int(out: &mut [u8], x: i32)
    requires { 4 ≤ length out.old }
    ensures { out.new ≡ int_bytes x ++ drop 4 out.old }
{
    let u = to_bits(x);
    out[0] = (u % 256) as u8;
    out[1] = ((u >> 8) % 256) as u8;
    out[2] = ((u >> 16) % 256) as u8;
    out[3] = ((u >> 24) % 256) as u8;
}

// Whether a is b.
pub fn same(a: i32, b: i32) -> bool
    ensures { result ≡ eq_z a b }
{
    a == b
}

// Whether x lies between the bounds, both ends included.
pub fn within(x: i32, lower: i32, upper: i32) -> bool
    ensures { result ≡ (le_z lower x && le_z x upper) }
{
    lower <= x && x <= upper
}
