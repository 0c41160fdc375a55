// The rows of a table of ways.
ghost use Rattle.std.specs.Prelude.{◌<◌};
ghost use Rattle.rebuild_ways.specs.Table.{Ends};
ghost use Rattle.rebuild_ways.specs.Fills.{Roomy, RowFilled, RowsFilled};

use super::{ROW, USED};
use distance::Legs;

// Writes the legs from a place to each end as one row.
fn fill_row(legs: &Legs, from: usize, ends: &[u32; 16], row: usize, rows: &mut [f64])
    requires { (from < 80) × Ends ends.now × (row < 16) × Roomy rows.old }
    ensures { RowFilled legs.now.table from ends.now row 11 rows.old rows.new }
{
    for c in 0..USED {
        rows[ROW * row + c] = legs.leg(from, ends[c] as usize) as f64;
    }
}

// Writes all rows.
pub fn fill_rows(legs: &Legs, starts: &[u32; 16], ends: &[u32; 16], rows: &mut [f64])
    requires { Ends starts.now × Ends ends.now × Roomy rows.old }
    ensures { RowsFilled legs.now.table starts.now ends.now 11 rows.old rows.new }
{
    for r in 0..USED {
        fill_row(legs, starts[r] as usize, ends, r, rows);
    }
}
