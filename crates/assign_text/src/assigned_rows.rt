// Rows of nodes with the children of an assigned table in place of their own.
ghost use Rattle.std.specs.Prelude.{◌≡◌, ◌+◌, ◌*◌, ◌<◌, ◌≤◌, length, get_or};
ghost use Rattle.lists.specs.Written.{written_at};
ghost use Rattle.tree.specs.Table.{child};
ghost use Rattle.tree.specs.Laying.{modes_in};
ghost use Rattle.assign_text.specs.Assigning.{row_in, assigned_rows};

use entities::codes;

// The child of a node in a table, and the absent child where the table has no such node.
fn child_of(table: &[u16], label: usize, edge: usize) -> u16
    requires { (label < 65536) × (edge < 3) }
    ensures { result ≡ child table.now label edge }
{
    let at = 3 * label + edge;
    if table.len() <= at {
        return codes::ABSENT;
    }
    table[at]
}

// The row with this number written anew.
fn assign_row(rows: &mut [u16], row: usize, table: &[u16])
    requires { 4 * row + 4 ≤ length rows.old }
    ensures { rows.new ≡ written_at (4 * row) (row_in table.now (get_or rows.old (4 * row) 0)) rows.old }
{
    let at = 4 * row;
    let label = usize::from(rows[at]);
    rows[at + 1] = child_of(table, label, 0);
    rows[at + 2] = child_of(table, label, 1);
    rows[at + 3] = child_of(table, label, 2);
}

// All rows written anew.
pub fn assign_rows(rows: &mut [u16], table: &[u16])
    requires { length rows.old ≡ 4 * modes_in rows.old }
    ensures { rows.new ≡ assigned_rows rows.old table.now }
{
    for row in 0..rows.len() / 4 {
        assign_row(rows, row, table);
    }
}
