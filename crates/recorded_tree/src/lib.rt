// A recorded tree case asked anew: the tree weight, or the refusal of check and weight, must be the one that the plain program gave.
#![tactic(auto)]

use recorded::lines;
use refusal::Refusal;

// The case is read whole and the library answers the same.
pub fn agrees(case: &[u8]) -> bool {
    let mut tree = [0u16; 780];
    let mut terms = [0u16; 16384];
    let Some(modes) = lines::read_one(case, 0, b"modes\t") else {
        return false;
    };
    let codes = lines::read_lines(case, modes.end, b"tree\t", 3, &mut tree);
    let read = lines::read_terms(case, codes.end, &mut terms);
    same_answer(
        case,
        read.end,
        usize::from(modes.number),
        &tree[..codes.count],
        &terms[..read.count],
    )
}

// The line that begins here ends the case and says what the tree weight says, and the check refuses alike.
fn same_answer(case: &[u8], from: usize, modes: usize, tree: &[u16], terms: &[u16]) -> bool {
    match (
        tree::check_tree(modes, tree),
        tree_weight::tree_weight(modes, tree, terms),
    ) {
        (Ok(()), Ok(weight)) => same_weight(case, from, weight),
        (Err(checked), Err(weighed)) => { checked == weighed && same_refusal(case, from, weighed) }
        _ => false,
    }
}

// The line that begins here ends the case and says this weight.
fn same_weight(case: &[u8], from: usize, weight: u64) -> bool {
    let Some(recorded) = lines::read_one(case, from, b"weight\t") else {
        return false;
    };
    if recorded.end != case.len() {
        return false;
    }
    recorded.number as u64 == weight
}

// The line that begins here ends the case and says this refusal.
fn same_refusal(case: &[u8], from: usize, refusal: Refusal) -> bool {
    let mut recorded = [0u16; 2];
    let line = lines::read_line(case, from, b"refused\t", &mut recorded);
    line.count == 2
        && line.end == case.len()
        && usize::from(recorded[0]) == refusal::number(refusal)
        && usize::from(recorded[1]) == refusal::place(refusal)
}
