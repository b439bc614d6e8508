// The archive of the queue daemon's calls: each exported under its own name, as crate daemon promises it.
#![tactic(auto)]

ghost use Rattle.entities.specs.Limits.{most_modes};
ghost use Rattle.assign_call.specs.Calls.{lent_table, assign_called};
ghost use Rattle.assign_call.specs.Promises.{AssignCalled};
ghost use Rattle.daemon.specs.Calls.{lent, resume_called, hatt_called};
ghost use Rattle.daemon.specs.Promises.{Called};

// An unbroken run: resuming from an empty journal.
#[unsafe(no_mangle)]
pub extern "C" fn dewgoblin_hatt(
    modes: u64,
    terms: &[u8],
    rows: &mut [u8],
    journal: &mut [u8],
    answer: &mut [u8],
) -> u64
    ensures { Called (hatt_called most_modes modes terms.now)
        (lent rows.old journal.old answer.old) (lent rows.new journal.new answer.new) result }
{
    daemon::dewgoblin_hatt(modes, terms, rows, journal, answer)
}

// The run that a journal leads to, from its last complete line to the end.
#[unsafe(no_mangle)]
pub extern "C" fn dewgoblin_resume(
    modes: u64,
    terms: &[u8],
    read: &[u8],
    rows: &mut [u8],
    journal: &mut [u8],
    answer: &mut [u8],
) -> u64
    ensures { Called (resume_called most_modes modes terms.now read.now)
        (lent rows.old journal.old answer.old) (lent rows.new journal.new answer.new) result }
{
    daemon::dewgoblin_resume(modes, terms, read, rows, journal, answer)
}

// The leaves of a given tree assigned anew.
#[unsafe(no_mangle)]
pub extern "C" fn dewgoblin_assign(
    modes: u64,
    tree: &[u8],
    heuristic: u64,
    terms: &[u8],
    table: &mut [u8],
    answer: &mut [u8],
) -> u64
    ensures { AssignCalled (assign_called most_modes modes tree.now heuristic terms.now)
        (lent_table table.old answer.old) (lent_table table.new answer.new) result }
{
    daemon::dewgoblin_assign(modes, tree, heuristic, terms, table, answer)
}
