// Rows with elements that every member may take: their rows are full.
ghost use Rattle.std.specs.Prelude.{◌≤◌};
ghost use Rattle.rows.specs.Rows.{may};
ghost use Rattle.fillings.specs.Pad.{Padded};

use masks::span;

// The rows of the elements below n, and after them rows that have every member below k.
pub fn padded(rows: &[u32; 32], n: u8, k: u8) -> [u32; 32]
    requires { (n ≤ 32) × (k ≤ 32) }
    ensures { Padded (may rows.now) n k (may result) }
{
    let mut r = [span(0, k); 32];
    let size = n as usize;
    r[..size].copy_from_slice(&rows[..size]);
    r
}
