// A recorded assign case asked anew: the weight and the table must be those that ferrmion's Rust gave.
#![tactic(auto)]

use recorded::{answer, fronts, lines};

// The case is read whole and the library answers the same.
pub fn agrees(case: &[u8]) -> bool {
    let mut tree = [0u16; 771];
    let mut terms = [0u16; 16384];
    let mut rows = [0u16; 1028];
    let Some(modes) = lines::read_one(case, 0, b"modes\t") else {
        return false;
    };
    let codes = lines::read_lines(case, modes.end, b"tree\t", 3, &mut tree);
    let Some(heuristic) = lines::read_one(case, codes.end, b"heuristic\t") else {
        return false;
    };
    let read = lines::read_terms(case, heuristic.end, &mut terms);
    let Some(recorded) = answer::read_answer(case, read.end, &mut rows) else {
        return false;
    };
    same_answer(
        usize::from(modes.number),
        &tree[..codes.count],
        usize::from(heuristic.number),
        &terms[..read.count],
        recorded.weight,
        &rows[..recorded.count],
    )
}

// The library's answer is this weight and the table that these rows say.
fn same_answer(
    modes: usize,
    tree: &[u16],
    heuristic: usize,
    terms: &[u16],
    weight: u64,
    rows: &[u16],
) -> bool {
    let mut work = [fronts::UNTOUCHED; 18441];
    let mut table = [fronts::UNTOUCHED; 780];
    topphatt::assign(modes, 0, tree, heuristic, terms, &mut work, &mut table) == Ok(weight)
        && same_table(rows, &table)
        && fronts::work_cleared(&work, terms)
}

// The rows, labelled in order, are the front of the table, and nothing behind it was touched.
fn same_table(rows: &[u16], table: &[u16]) -> bool {
    if rows.len() % 4 != 0 {
        return false;
    }
    let count = rows.len() / 4;
    if 256 < count {
        return false;
    }
    if table.len() < 3 * count {
        return false;
    }
    let (front, behind) = table.split_at(3 * count);
    rows.chunks_exact(4)
        .zip(front.chunks_exact(3))
        .enumerate()
        .all(|(label, (row, codes))| same_row(row, label, codes))
        && fronts::untouched(behind)
}

// The row has this label and these codes behind it.
fn same_row(row: &[u16], label: usize, codes: &[u16]) -> bool {
    let [said, children @ ..] = row else {
        return false;
    };
    usize::from(*said) == label && children == codes
}
