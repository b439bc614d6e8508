// Rows of nodes in any order, laid out as a tree table.
ghost use Rattle.std.specs.Prelude.{◌≡◌, [], ◌∷◌, ◌*◌, ◌≤◌, length, take, replicate};
ghost use Rattle.entities.specs.Codes.{absent};
ghost use Rattle.tree.specs.Laying.{row_over, laid_over, modes_in, table_of};

use entities::codes;

// A node's three children put in their place, where the table has it.
#[tactic(auto, unfolding(crate::specs::Laying::row_over, lists::specs::Written::written_at))]
fn lay_row(table: &mut [u16], label: usize, x: u16, y: u16, z: u16)
    requires { label ≤ 65535 }
    ensures { table.new ≡ row_over table.old label (x ∷ (y ∷ (z ∷ []))) }
{
    let at = 3 * label;
    if at + 2 < table.len() {
        table[at..at + 3].copy_from_slice(&[x, y, z]);
    }
}

// Rows of four, a label and three codes, laid out as a table.
pub fn lay_rows(rows: &[u16], table: &mut [u16])
    ensures { table.new ≡ laid_over (replicate (length table.old) absent) rows.now }
{
    table.fill(codes::ABSENT);
    for row in rows.chunks_exact(4) {
        lay_row(table, usize::from(row[0]), row[1], row[2], row[3]);
    }
}

// The table of rows, laid out in the front of a lent one.
pub fn lay_front(rows: &[u16], table: &mut [u16])
    requires { 3 * modes_in rows.now ≤ length table.old }
    ensures { take (3 * modes_in rows.now) table.new ≡ table_of rows.now }
{
    let end = 3 * (rows.len() / 4);
    lay_rows(rows, &mut table[..end]);
}
