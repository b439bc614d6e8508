// A call from C on arrays of its own: resuming between the bytes that were lent.
ghost use Rattle.std.specs.Prelude.{◌≡◌, ◌+◌, ◌*◌, ◌≤◌, length};
ghost use Rattle.entities.specs.Limits.{most_modes, most_terms, row_width};
ghost use Rattle.journal.specs.Resuming.{resumed};
ghost use Rattle.journal.specs.Promises.{lent as run_lent, rooms_of};
ghost use Rattle.daemon.specs.Calls.{lent, resume_called};
ghost use Rattle.daemon.specs.code.Handing.{own_of, resume_handed};
ghost use Rattle.daemon.specs.Promises.{Called};

use crate::answering;
use call_bytes::term_bytes;
use journal::resuming;

// Resuming with rows of the call's own, which fit into the lent ones; where there are any, the answer's numbers fit too.
fn resume_numbers(
    modes: usize,
    terms: &[u16],
    read: &[u8],
    work: &mut [u16],
    own: &mut [u16],
    drops: &mut [u16],
    rows: &mut [u8],
    journal: &mut [u8],
    answer: &mut [u8],
) -> u64
    requires { (2 * length own.old ≤ length rows.old) × (1 ≤ length own.old → 32 ≤ length answer.old) }
    ensures { Called (λ given. resumed (rooms_of most_modes (run_lent work.old own.old given.journal drops.old)) modes 0 terms.now read.now)
        (lent rows.old journal.old answer.old) (lent rows.new journal.new answer.new) result }
{
    match resuming::resume(modes, 0, terms, read, work, own, journal, drops) {
        Err(why) => call_bytes::refusal_result(why),
        Ok(numbers) => {
            answering::put_done(modes, own, numbers, rows, answer);
            0
        }
    }
}

// The terms read, and as much of the call's own rows lent as the caller's have room for, so that 5 is given in its turn.
fn resume_lent(
    modes: usize,
    terms: &[u8],
    read: &[u8],
    numbers: &mut [u16],
    work: &mut [u16],
    own: &mut [u16],
    drops: &mut [u16],
    rows: &mut [u8],
    journal: &mut [u8],
    answer: &mut [u8],
) -> u64
    requires { length numbers.old ≡ row_width * (most_terms + 1) }
    ensures { Called (resume_handed (own_of most_modes work.old own.old drops.old) modes terms.now read.now)
        (lent rows.old journal.old answer.old) (lent rows.new journal.new answer.new) result }
{
    let count = term_bytes::read_terms(terms, numbers);
    let room = call_bytes::room_for(4, own.len(), rows.len(), answer.len());
    resume_numbers(
        modes,
        &numbers[..count],
        read,
        work,
        &mut own[..room],
        drops,
        rows,
        journal,
        answer,
    )
}

// The call's own arrays: the terms' numbers, the work, the rows and the drops, which no caller in C is told.
pub fn resume_bytes(
    modes: u64,
    terms: &[u8],
    read: &[u8],
    rows: &mut [u8],
    journal: &mut [u8],
    answer: &mut [u8],
) -> u64
    ensures { Called (resume_called most_modes modes terms.now read.now)
        (lent rows.old journal.old answer.old) (lent rows.new journal.new answer.new) result }
{
    let mut numbers = [0u16; 16392];
    let mut work = [0u16; 18432];
    let mut own = [0u16; 1024];
    let mut drops = [0u16; 256];
    resume_lent(
        modes as usize,
        terms,
        read,
        &mut numbers,
        &mut work,
        &mut own,
        &mut drops,
        rows,
        journal,
        answer,
    )
}
