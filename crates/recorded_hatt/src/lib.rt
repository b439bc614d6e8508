// A recorded HATT case asked anew: the weight and the rows must be those that ferrmion's Rust gave. It counts no drops; ours must be of every term.
#![tactic(auto)]

use journal::resuming;
use recorded::{answer, fronts, lines};
use terms::row;

// The case is read whole and the library answers the same.
pub fn agrees(case: &[u8]) -> bool {
    let mut terms = [0u16; 16384];
    let mut rows = [0u16; 1028];
    let Some(modes) = lines::read_one(case, 0, b"modes\t") else {
        return false;
    };
    let read = lines::read_terms(case, modes.end, &mut terms);
    let Some(recorded) = answer::read_answer(case, read.end, &mut rows) else {
        return false;
    };
    same_answer(
        usize::from(modes.number),
        &terms[..read.count],
        recorded.weight,
        &rows[..recorded.count],
    )
}

// The library's answer to these terms is this weight and these rows.
fn same_answer(modes: usize, terms: &[u16], weight: u64, rows: &[u16]) -> bool {
    let mut work = [fronts::UNTOUCHED; 18441];
    let mut written = [fronts::UNTOUCHED; 1028];
    let mut journal = [fronts::UNTOUCHED_BYTE; 5400];
    let mut drops = [fronts::UNTOUCHED; 260];
    let Ok(numbers) = resuming::hatt(
        modes,
        0,
        terms,
        &mut work,
        &mut written,
        &mut journal,
        &mut drops,
    ) else {
        return false;
    };
    numbers.weight == weight
        && fronts::holds(&written, rows)
        && fronts::work_cleared(&work, terms)
        && all_dropped(&drops, modes, terms.len() / row::WIDTH)
        && fronts::bytes_untouched(&journal, numbers.new)
}

// The drops of the first `modes` steps add up to the terms, for the published rule leaves none, and nothing behind them was touched.
fn all_dropped(drops: &[u16], modes: usize, terms: usize) -> bool {
    if drops.len() < modes {
        return false;
    }
    let (steps, behind) = drops.split_at(modes);
    let left = steps.iter().try_fold(
        terms,
        |left, dropped| left.checked_sub(usize::from(*dropped)),
    );
    left == Some(0) && fronts::untouched(behind)
}
