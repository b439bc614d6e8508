// A program's text read and its run made, for whatever is printed of it.
ghost use Rattle.std.specs.Prelude.{◌≡◌};
ghost use Rattle.entities.specs.Limits.{most_modes};
ghost use Rattle.terms_text.specs.Input.{given};
ghost use Rattle.terms_text.specs.Jobs.{requested};
ghost use Rattle.text.specs.code.Runs.{lent, Runs, drops_then};
ghost use Rattle.text.specs.Running.{program_rooms, ran_by, ran};

use journal::resuming;
use refusal::Refusal;
use terms::rules::Rule;
use terms_text::jobs::Request;

// A run that is done: its modes, greedy weight and trials, and how many bytes its new lines have.
#[derive(Clone, Copy)]
pub struct Run {
    pub modes: usize,
    pub weight: u64,
    pub trials: u64,
    pub new: usize,
}

// The run of these terms, resumed from the journal that is read, in lent room for work, rows, journal and drops.
fn run_terms(
    modes: usize,
    rule: Rule,
    numbers: &[u16],
    read: &[u8],
    work: &mut [u16; 18432],
    rows: &mut [u16; 1024],
    journal: &mut [u8; 5392],
    drops: &mut [u16; 256],
) -> Result<Run, Refusal>
    ensures runs { Runs most_modes (ran_by program_rooms rule (given modes numbers.now) read.now)
        (lent rows.old journal.old) (lent rows.new journal.new) result }
    ensures drops_after { drops.new ≡ drops_then (ran_by program_rooms rule (given modes numbers.now) read.now) drops.old }
{
    let found = resuming::resume(
        modes,
        usize::from(rule),
        numbers,
        read,
        work,
        rows,
        journal,
        drops,
    )?;
    Ok(Run {
        modes,
        weight: found.weight,
        trials: found.trials,
        new: found.new,
    })
}

// The same with work of its own.
fn run_given(
    modes: usize,
    rule: Rule,
    numbers: &[u16],
    read: &[u8],
    rows: &mut [u16; 1024],
    journal: &mut [u8; 5392],
    drops: &mut [u16; 256],
) -> Result<Run, Refusal>
    ensures runs { Runs most_modes (ran_by program_rooms rule (given modes numbers.now) read.now)
        (lent rows.old journal.old) (lent rows.new journal.new) result }
    ensures drops_after { drops.new ≡ drops_then (ran_by program_rooms rule (given modes numbers.now) read.now) drops.old }
{
    let mut work = [0u16; 18432];
    run_terms(modes, rule, numbers, read, &mut work, rows, journal, drops)
}

// The run that is asked for, in lent room for its terms.
fn run_read(
    asks: &Request,
    read: &[u8],
    numbers: &mut [u16; 16384],
    rows: &mut [u16; 1024],
    journal: &mut [u8; 5392],
    drops: &mut [u16; 256],
) -> Result<Run, Refusal>
    ensures runs { Runs most_modes (ran program_rooms (requested asks.now) read.now)
        (lent rows.old journal.old) (lent rows.new journal.new) result }
    ensures drops_after { drops.new ≡ drops_then (ran program_rooms (requested asks.now) read.now) drops.old }
{
    let given = terms_text::read_input(asks.text, numbers)?;
    let end = 8 * given.count;
    run_given(
        given.modes,
        asks.rule,
        &numbers[..end],
        read,
        rows,
        journal,
        drops,
    )
}

// The run that is asked for, resumed from the journal that is read: its rows, its new lines and its drops put over the fronts of what is lent.
pub fn run_drops(
    asks: &Request,
    read: &[u8],
    rows: &mut [u16; 1024],
    journal: &mut [u8; 5392],
    drops: &mut [u16; 256],
) -> Result<Run, Refusal>
    ensures runs { Runs most_modes (ran program_rooms (requested asks.now) read.now)
        (lent rows.old journal.old) (lent rows.new journal.new) result }
    ensures drops_after { drops.new ≡ drops_then (ran program_rooms (requested asks.now) read.now) drops.old }
{
    let mut numbers = [0u16; 16384];
    run_read(asks, read, &mut numbers, rows, journal, drops)
}

// The run that is asked for, for whoever has no use for the drops.
pub fn run_text(
    asks: &Request,
    read: &[u8],
    rows: &mut [u16; 1024],
    journal: &mut [u8; 5392],
) -> Result<Run, Refusal>
    ensures { Runs most_modes (ran program_rooms (requested asks.now) read.now)
        (lent rows.old journal.old) (lent rows.new journal.new) result }
{
    let mut drops = [0u16; 256];
    run_drops(asks, read, rows, journal, &mut drops)
}
