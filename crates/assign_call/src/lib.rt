// Assigning called from C, on arrays of the call's own, between the bytes that were lent.
#![tactic(auto)]

ghost use Rattle.std.specs.Prelude.{◌≡◌, ◌+◌, ◌*◌, ◌≤◌, length, take};
ghost use Rattle.lists.specs.Written.{written_at};
ghost use Rattle.entities.specs.Limits.{most_modes, most_terms, row_width};
ghost use Rattle.topphatt.specs.Answer.{asked, outcome};
ghost use Rattle.topphatt.specs.Promises.{lent as in_numbers, rooms_of};
ghost use Rattle.call_bytes.specs.Bytes.{two_bytes, eight_bytes};
ghost use Rattle.assign_call.specs.Calls.{lent_table, assign_called};
ghost use Rattle.assign_call.specs.code.Handing.{assign_handed};
ghost use Rattle.assign_call.specs.code.Reading.{TreeRead};
ghost use Rattle.assign_call.specs.Promises.{AssignCalled};

use call_bytes::{term_bytes, words};

// How many numbers of a tree the call goes on with: none where the bytes aren't 6n, so that 13 is given in its turn.
fn read_tree(modes: usize, bytes: &[u8], numbers: &mut [u16]) -> usize
    requires { length numbers.old ≡ 3 * most_modes }
    ensures { TreeRead most_modes modes bytes.now numbers.new result }
{
    if 256 < modes {
        return 0;
    }
    if bytes.len() != 6 * modes {
        return 0;
    }
    let count = 3 * modes;
    words::read_words(bytes, &mut numbers[..count]);
    count
}

// The table of an assignment that is done, three codes a mode, and its weight.
fn put_assigned(modes: usize, own: &[u16], weight: u64, table: &mut [u8], answer: &mut [u8])
    requires { (3 * modes ≤ length own.now) × (6 * modes ≤ length table.old) × (8 ≤ length answer.old) }
    ensures { (table.new ≡ written_at 0 (two_bytes (take (3 * modes) own.now)) table.old) × (answer.new ≡ written_at 0 (eight_bytes weight) answer.old) }
{
    let end = 3 * modes;
    words::put_words(&own[..end], table);
    words::put_eight(weight, answer, 0);
}

// Assigning by the published rule, with a table of the call's own, which fits into the lent one; where there is any, the weight fits too.
fn assign_numbers(
    modes: usize,
    tree: &[u16],
    heuristic: usize,
    terms: &[u16],
    work: &mut [u16],
    own: &mut [u16],
    table: &mut [u8],
    answer: &mut [u8],
) -> u64
    requires { (2 * length own.old ≤ length table.old) × (1 ≤ length own.old → 8 ≤ length answer.old) }
    ensures { AssignCalled (λ given. outcome (rooms_of most_modes (in_numbers work.old own.old)) (asked modes 0 tree.now heuristic terms.now))
        (lent_table table.old answer.old) (lent_table table.new answer.new) result }
{
    match topphatt::assign(modes, 0, tree, heuristic, terms, work, own) {
        Err(why) => call_bytes::refusal_result(why),
        Ok(weight) => {
            put_assigned(modes, own, weight, table, answer);
            0
        }
    }
}

// Tree and terms read, and as much of the call's own table lent as the caller's has room for, so that 5 is given in its turn.
fn assign_lent(
    modes: usize,
    tree: &[u8],
    heuristic: usize,
    terms: &[u8],
    codes: &mut [u16],
    numbers: &mut [u16],
    work: &mut [u16],
    own: &mut [u16],
    table: &mut [u8],
    answer: &mut [u8],
) -> u64
    requires { (length codes.old ≡ 3 * most_modes) × (length numbers.old ≡ row_width * (most_terms + 1)) }
    ensures { AssignCalled (assign_handed (rooms_of most_modes (in_numbers work.old own.old)) modes tree.now heuristic terms.now)
        (lent_table table.old answer.old) (lent_table table.new answer.new) result }
{
    let nodes = read_tree(modes, tree, codes);
    let count = term_bytes::read_terms(terms, numbers);
    let room = call_bytes::room_for(1, own.len(), table.len(), answer.len());
    assign_numbers(
        modes,
        &codes[..nodes],
        heuristic,
        &numbers[..count],
        work,
        &mut own[..room],
        table,
        answer,
    )
}

// The call's own arrays: the tree's and the terms' numbers, the work and the table.
pub fn assign_bytes(
    modes: u64,
    tree: &[u8],
    heuristic: u64,
    terms: &[u8],
    table: &mut [u8],
    answer: &mut [u8],
) -> u64
    ensures { AssignCalled (assign_called most_modes modes tree.now heuristic terms.now)
        (lent_table table.old answer.old) (lent_table table.new answer.new) result }
{
    let mut codes = [0u16; 768];
    let mut numbers = [0u16; 16392];
    let mut work = [0u16; 18432];
    let mut own = [0u16; 768];
    assign_lent(
        modes as usize,
        tree,
        heuristic as usize,
        terms,
        &mut codes,
        &mut numbers,
        &mut work,
        &mut own,
        table,
        answer,
    )
}
