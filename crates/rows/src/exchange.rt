// Rows and columns of cells exchanged, digit by digit of their numbers.
ghost use Rattle.std.specs.Prelude.{◌≡◌, ◌+◌, ◌*◌, ◌%◌, ◌<◌, ◌≤◌, length};
ghost use Rattle.facts.specs.Counting.{between};
ghost use Rattle.rows.specs.Exchange.{LowColumns, LowerRow, UpperRow, Exchanged, Square, Within, Transposed};

// The lower of two rows after their exchange: the cells of `high` in the columns of the mask come to it, each j columns on.
fn lower_row(low: u32, high: u32, j: u32, mask: u32) -> u32
    requires { j < 32 }
    ensures { LowerRow low high j mask result }
{
    low ^ ((((low >> j) ^ high) & mask) << j)
}

// The upper one: the cells of `low` that go come to the columns of the mask.
fn upper_row(low: u32, high: u32, j: u32, mask: u32) -> u32
    requires { j < 32 }
    ensures { UpperRow low high j mask result }
{
    high ^ (((low >> j) ^ high) & mask)
}

// Exchanges the digits of weight j of row and column in the 2 j rows from `from` on: of each row with the one j rows on.
fn exchange_block(a: &mut [u32; 32], from: usize, j: usize, mask: u32)
    requires { (0 < j) × (from % (2 * j) ≡ 0) × (from + 2 * j ≤ 32) × LowColumns j mask × (length a.old ≡ 32) }
    ensures { Exchanged j (between from (from + 2 * j)) a.old a.new }
{
    for i in from..from + j {
        let low = a[i];
        let high = a[i + j];
        a[i] = lower_row(low, high, j as u32, mask);
        a[i + j] = upper_row(low, high, j as u32, mask);
    }
}

// The same in the first `size` rows.
fn exchange_all(a: &mut [u32; 32], size: usize, j: usize, mask: u32)
    requires { (0 < j) × (size % (2 * j) ≡ 0) × (size ≤ 32) × LowColumns j mask × (length a.old ≡ 32) }
    ensures { Exchanged j (between 0 size) a.old a.new }
{
    let mut k: usize = 0;
    // no step_by: the requires lets in size 0 with a j whose double does not fit, and step_by asks for the step before the first row
    while k < size {
        exchange_block(a, k, j, mask);
        k += 2 * j;
    }
}

// Exchanges rows and columns, digit by digit of their numbers. Only the first `size` rows are gone through: few rows have few digits.
pub fn transpose(a: &mut [u32; 32], size: usize)
    requires { Square size × (length a.old ≡ 32) × Within size a.old }
    ensures { Transposed a.old a.new }
{
    exchange_all(a, size, 1, 0x5555_5555);
    exchange_all(a, size, 2, 0x3333_3333);
    exchange_all(a, size, 4, 0x0f0f_0f0f);
    if size == 8 {
        return;
    }
    exchange_all(a, size, 8, 0x00ff_00ff);
    if size == 16 {
        return;
    }
    exchange_all(a, size, 16, 0x0000_ffff);
}
