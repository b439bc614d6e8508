// The work rows that are there, one behind the other and without their counts, for whoever weighs many triples in them.
ghost use Rattle.std.specs.Prelude.{◌+◌, ◌*◌, ◌≤◌, length};
ghost use Rattle.entities.specs.Limits.{row_width, work_width};
ghost use Rattle.terms.specs.code.Held.{Held};
ghost use Rattle.reduction.specs.code.Promises.{RowGathered, LiveRows};

use terms::row;

// The row at this place put behind the first `kept`; how many there are then, one more only where it is there. It is put before it is looked at: which rows are there no processor can foresee.
fn gather_row(rows: &[u16], place: usize, live: &mut [u16], kept: usize) -> usize
    requires { (work_width * place + work_width ≤ length rows.now) × (row_width * kept + row_width ≤ length live.old) }
    ensures { RowGathered rows.now place kept live.old live.new result }
{
    let from = row::WORK_WIDTH * place;
    row::put_row(live, row::WIDTH, kept, &rows[from..from + row::WIDTH]);
    if rows[from] == 0 { kept } else { kept + 1 }
}

// Those of the first `count` rows that are there, over the front of the numbers; how many they are.
pub fn put_live(rows: &[u16], count: usize, live: &mut [u16]) -> usize
    requires held { Held work_width count rows.now }
    requires count_in_bounds { row_width * count ≤ length live.old }
    ensures { LiveRows count rows.now live.new result }
{
    let mut kept = 0;
    for place in 0..count {
        kept = gather_row(rows, place, live, kept);
    }
    kept
}
