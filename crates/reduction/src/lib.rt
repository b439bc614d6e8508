// Reduction: the triple becomes its parent in every row, rows that are all parent are dropped if the rule drops them, equal rows become one.
#![tactic(auto)]

ghost use Rattle.std.specs.Prelude.{◌≡◌, ◌+◌, ◌*◌, ◌≤◌, ◌<◌, length, get_or, set, replicate};
ghost use Rattle.lists.specs.Written.{written_at};
ghost use Rattle.entities.specs.Limits.{most_terms, row_width, work_width};
ghost use Rattle.terms.specs.Rows.{terms_of};
ghost use Rattle.terms.specs.code.Held.{Held, Worked};
ghost use Rattle.reduction.specs.Reduction.{replacement, rewriting, dropped as is_dropped};
ghost use Rattle.reduction.specs.code.Promises.{term_at, Rewritten, merged_rows, RowSettled, RowReduced, Reduced};
ghost use Rattle.reduction.specs.code.Marks.{mark_room, Chained, first_like as like_before};

use entities::Triple;
use terms::row;
use terms::rules::Rule;

mod kept_rows;
pub mod live_rows;

// The parent for each of the triple, any other number for itself.
#[tactic(auto, unfolding(crate::specs::Reduction::replacement))]
fn replaced(number: u16, triple: Triple, parent: u16) -> u16
    ensures { result ≡ replacement triple parent number }
{
    if number == triple.x || number == triple.y || number == triple.z {
        parent
    } else {
        number
    }
}

// The term with the triple replaced, sorted.
fn rewrite(term: &mut [u16], triple: Triple, parent: u16)
    ensures { term.new ≡ rewriting triple parent term.old }
{
    for index in term.iter_mut() {
        *index = replaced(*index, triple, parent);
    }
    term.sort_unstable();
}

// The row's term rewritten where it stands; its count stands behind it.
fn rewrite_row(row: &mut [u16], triple: Triple, parent: u16)
    requires { (get_or row.old 0 0 < row_width) × (row_width < length row.old) }
    ensures { Rewritten triple parent row.old row.new }
{
    let count = usize::from(row[0]);
    rewrite(&mut row[1..=count], triple, parent);
}

// The rule drops rows that are all parent, and this term is.
fn is_dropped(rule: Rule, parent: u16, term: &[u16]) -> bool
    ensures { result ≡ is_dropped rule parent term.now }
{
    match rule {
        Rule::Published => term.iter().all(|index| *index == parent),
        Rule::Keep => false,
    }
}

// The term of the row at this place is dropped.
fn drops_at(rows: &[u16], place: usize, rule: Rule, parent: u16) -> bool
    requires { Held work_width (place + 1) rows.now }
    ensures { result ≡ is_dropped rule parent (term_at place rows.now) }
{
    is_dropped(rule, parent, row::term_at(rows, row::WORK_WIDTH, place))
}

// The place of the row before this one that has its term, and this place where none has.
fn first_like<'a>(rows: &'a [u16], place: usize, chains: &'a [u16]) -> usize
    requires held { Held work_width (place + 1) rows.now }
    requires chained { Chained mark_room most_terms (terms_of work_width place rows.now) chains.now }
    requires nonzero { 0 < length (term_at place rows.now) }
    ensures { result ≡ like_before (term_at place rows.now) (terms_of work_width place rows.now) }
{
    kept_rows::find_like(
        rows,
        place,
        chains,
        row::term_at(rows, row::WORK_WIDTH, place),
    )
}

// Zeros written over the row at this place; the count that stood there.
#[tactic(auto, unfolding(lists::specs::Written::written_at))]
fn clear_row(rows: &mut [u16], place: usize) -> u16
    requires { work_width * place + work_width ≤ length rows.old }
    ensures value { result ≡ get_or rows.old (work_width * place + row_width) 0 }
    ensures rows_after { rows.new ≡ written_at (work_width * place) (replicate work_width 0) rows.old }
{
    let from = row::WORK_WIDTH * place;
    let count = rows[from + row::WIDTH];
    rows[from..from + row::WORK_WIDTH].fill(0);
    count
}

// So many more counted for the row at this place.
fn raise_count(rows: &mut [u16], place: usize, more: u16)
    requires work_width_in_bounds { work_width * place + work_width ≤ length rows.old }
    requires more_bound { get_or rows.old (work_width * place + row_width) 0 + more < 65536 }
    ensures { rows.new ≡ set rows.old (work_width * place + row_width) (get_or rows.old (work_width * place + row_width) 0 + more) }
{
    let at = row::WORK_WIDTH * place + row::WIDTH;
    rows[at] += more;
}

// The row at this place made zeros, and its count added to that of an earlier row, which has its term.
fn merge_row(rows: &mut [u16], place: usize, first: usize)
    requires { (first < place) × Worked (place + 1) rows.old }
    ensures { rows.new ≡ merged_rows place first rows.old }
{
    let count = clear_row(rows, place);
    raise_count(rows, first, count);
}

// The row at this place dropped, merged into the one before it that has its term, or left as it is and put on its mark's chain; how many input rows it stands for where it is dropped, else 0.
fn settle_row(rows: &mut [u16], chains: &mut [u16], place: usize, rule: Rule, parent: u16) -> usize
    requires worked { Worked (place + 1) rows.old }
    requires chained { Chained mark_room most_terms (terms_of work_width place rows.old) chains.old }
    requires nonzero { 0 < length (term_at place rows.old) }
    requires place_lt_most_terms { place < most_terms }
    ensures row_settled { RowSettled rule parent place rows.old rows.new result }
    ensures chained_2 { Chained mark_room most_terms (terms_of work_width (place + 1) rows.new) chains.new }
{
    if drops_at(rows, place, rule, parent) {
        return usize::from(clear_row(rows, place));
    }
    let first = first_like(rows, place, chains);
    if first < place {
        merge_row(rows, place, first);
        return 0;
    }
    kept_rows::set_mark(chains, row::term_at(rows, row::WORK_WIDTH, place), place);
    0
}

// The row at this place reduced where it stands, and put on a chain where it stays; how many input rows were dropped with it.
fn reduce_row(
    rows: &mut [u16],
    chains: &mut [u16],
    place: usize,
    rule: Rule,
    triple: Triple,
    parent: u16,
) -> usize
    requires worked { Worked (place + 1) rows.old }
    requires chained { Chained mark_room most_terms (terms_of work_width place rows.old) chains.old }
    requires place_lt_most_terms { place < most_terms }
    ensures row_reduced { RowReduced rule triple parent place rows.old rows.new result }
    ensures chained_2 { Chained mark_room most_terms (terms_of work_width (place + 1) rows.new) chains.new }
{
    let from = row::WORK_WIDTH * place;
    // a row that is gone stays gone, and on no chain: no row that is there is like it
    if rows[from] == 0 {
        return 0;
    }
    rewrite_row(&mut rows[from..from + row::WORK_WIDTH], triple, parent);
    settle_row(rows, chains, place, rule, parent)
}

// The first rows reduced to the parent by the rule, each where it stands; a row that is dropped or merged is zeros there. How many input rows those dropped stood for.
pub fn reduce_hamiltonian(
    rows: &mut [u16],
    count: usize,
    rule: Rule,
    parent: u16,
    selection: Triple,
) -> usize
    requires worked { Worked count rows.old }
    requires count_le_most_terms { count ≤ most_terms }
    ensures { Reduced rule selection parent count rows.old rows.new result }
{
    // a number for each mark and one for each place; no row is passed yet, so no chain has begun
    let mut chains = [0u16; 18432];
    let mut dropped: usize = 0;
    for place in 0..count {
        dropped += reduce_row(rows, &mut chains, place, rule, selection, parent);
    }
    dropped
}
