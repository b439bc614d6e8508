// What the tests call from Rust: the calls `resume`, `assign`, `best`, the Newick calls and `write_strings`, one merge of rows, and what the tree calls answer.
#![tactic(auto)]

ghost use Rattle.std.specs.Prelude.{◌≤◌};
ghost use Rattle.entities.specs.Limits.{most_terms};
ghost use Rattle.terms.specs.code.Held.{Given, Worked};

use entities::Triple;
use journal::resuming;
use newick::{reading, writing};
use refusal::Refusal;
use terms::rules::Rule;
use terms::{checking, counted, row, rules, weight};

// The terms put as work rows over the lent rows, each standing for itself; the triple weighed in them, and they reduced to its parent by the rule of this number. The refusal of the terms follows, the weight, and how many terms were dropped.
#[unsafe(no_mangle)]
pub extern "C" fn test_merge(
    modes: usize,
    rule: usize,
    terms: &[u16],
    rows: &mut [u16],
    x: u16,
    y: u16,
    z: u16,
    parent: u16,
    answer: &mut [u64],
) {
    match checking::check_terms(modes, terms) {
        Ok(count) => {
            let triple = Triple { x, y, z };
            put_merge(
                terms,
                count,
                rows,
                rules::rule_of(rule),
                triple,
                parent,
                answer,
            )
        }
        Err(refusal) => put_three(answer, [refusal::number(refusal) as u64, 0, 0]),
    }
}

// The same, of the first `count` terms, all good; nothing where there is no room for their rows.
fn put_merge(
    terms: &[u16],
    count: usize,
    rows: &mut [u16],
    rule: Rule,
    triple: Triple,
    parent: u16,
    answer: &mut [u64],
)
    requires given { Given count terms.now }
    requires count_le_most_terms { count ≤ most_terms }
{
    if rows.len() < row::WORK_WIDTH * count {
        return;
    }
    counted::put_each_once(terms, count, rows);
    merge_rows(rows, count, rule, triple, parent, answer);
}

// The same, of the first `count` work rows.
fn merge_rows(
    rows: &mut [u16],
    count: usize,
    rule: Rule,
    triple: Triple,
    parent: u16,
    answer: &mut [u64],
)
    requires worked { Worked count rows.old }
    requires count_le_most_terms { count ≤ most_terms }
{
    let weighed = weight::weight(rows, row::WORK_WIDTH, count, triple);
    let dropped = reduction::reduce_hamiltonian(rows, count, rule, parent, triple);
    put_three(answer, [0, weighed as u64, dropped as u64]);
}

// The call `resume` as it is; its six numbers follow: refusal, place, weight, trials, kept and new bytes.
#[unsafe(no_mangle)]
pub extern "C" fn test_resume(
    modes: usize,
    rule: usize,
    terms: &[u16],
    read: &[u8],
    work: &mut [u16],
    rows: &mut [u16],
    journal: &mut [u8],
    answer: &mut [u64],
    drops: &mut [u16],
) {
    put(
        answer,
        resuming::resume(modes, rule, terms, read, work, rows, journal, drops).map(|numbers| {
            [
                numbers.weight,
                numbers.trials,
                numbers.kept as u64,
                numbers.new as u64,
            ]
        }),
    );
}

// The call `assign` as it is; its refusal's number and place follow, and the weight.
#[unsafe(no_mangle)]
pub extern "C" fn test_assign(
    modes: usize,
    rule: usize,
    tree: &[u16],
    heuristic: usize,
    terms: &[u16],
    work: &mut [u16],
    table: &mut [u16],
    answer: &mut [u64],
) {
    let said = topphatt::assign(modes, rule, tree, heuristic, terms, work, table);
    put(answer, said.map(|weight| [weight]));
}

// What the check of a tree answers: its refusal's number and place, and a zero; nothing where there is no room.
#[unsafe(no_mangle)]
pub extern "C" fn test_check_tree(modes: usize, tree: &[u16], answer: &mut [u64]) {
    put(answer, tree::check_tree(modes, tree).map(|_| [0]));
}

// What the tree weight answers: its refusal's number and place, and the weight; nothing where there is no room.
#[unsafe(no_mangle)]
pub extern "C" fn test_tree_weight(modes: usize, tree: &[u16], terms: &[u16], answer: &mut [u64]) {
    let said = tree_weight::tree_weight(modes, tree, terms);
    put(answer, said.map(|weight| [weight]));
}

// The call `best` as it is; its refusal's number and place follow, the least weight and how many sequences reach it.
#[unsafe(no_mangle)]
pub extern "C" fn test_best(modes: usize, terms: &[u16], sequence: &mut [u16], answer: &mut [u64]) {
    let said = best::best(modes, terms, sequence);
    put(
        answer,
        said.map(|least| [least.weight, least.reached as u64]),
    );
}

// The call `write_newick` as it is; its refusal's number and place follow, and the bytes written.
#[unsafe(no_mangle)]
pub extern "C" fn test_write_newick(
    modes: usize,
    tree: &[u16],
    text: &mut [u8],
    answer: &mut [u64],
) {
    let said = writing::write_newick(modes, tree, text);
    put(answer, said.map(|count| [count as u64]));
}

// The call `write_strings`, likewise.
#[unsafe(no_mangle)]
pub extern "C" fn test_write_strings(
    modes: usize,
    tree: &[u16],
    text: &mut [u8],
    answer: &mut [u64],
) {
    let said = strings::write_strings(modes, tree, text);
    put(answer, said.map(|count| [count as u64]));
}

// The call `read_newick` as it is; its refusal's number and place follow, and the modes read.
#[unsafe(no_mangle)]
pub extern "C" fn test_read_newick(text: &[u8], table: &mut [u16], answer: &mut [u64]) {
    let said = reading::read_newick(text, table);
    put(answer, said.map(|modes| [modes as u64]));
}

// What a call says: its refusal's number and place, and the other numbers, which are zeros where it is refused; nothing where there is no room.
fn put<const N: usize>(answer: &mut [u64], said: Result<[u64; N], Refusal>) {
    if answer.len() < 2 || answer.len() - 2 != N {
        return;
    }
    match said {
        Ok(numbers) => {
            answer[..2].fill(0);
            answer[2..].copy_from_slice(&numbers);
        }
        Err(refusal) => {
            answer.fill(0);
            answer[0] = refusal::number(refusal) as u64;
            answer[1] = refusal::place(refusal) as u64;
        }
    }
}

// Three numbers, where there is room for them.
fn put_three(answer: &mut [u64], numbers: [u64; 3]) {
    if answer.len() == 3 {
        answer.copy_from_slice(&numbers);
    }
}
