// The rows passed: which of them has a term. Those with the same mark stand on a chain, and no others are compared with it.
ghost use Rattle.std.specs.Prelude.{◌≡◌, ◌+◌, ◌<◌, length};
ghost use Rattle.entities.specs.Limits.{most_terms, work_width};
ghost use Rattle.terms.specs.Rows.{terms_of};
ghost use Rattle.terms.specs.code.Held.{Held};
ghost use Rattle.reduction.specs.code.Marks.{mark_room, mark_of, Chained, put_first, first_like};

use terms::row;

// The term's mark, a number made from its indices: terms with different marks differ.
fn mark_of(term: &[u16]) -> usize
    ensures { (result ≡ mark_of mark_room term.now) × (result < mark_room) }
{
    let mut mark: usize = 0;
    for index in term {
        mark = (773 * mark + usize::from(*index)) % 16384;
    }
    mark
}

// The place of the row among the first `count` that has this term, and `count` where there is none: down the chain of its mark, from the last row put on it.
pub fn find_like<'a>(rows: &'a [u16], count: usize, chains: &'a [u16], term: &[u16]) -> usize
    requires held { Held work_width count rows.now }
    requires chained { Chained mark_room most_terms (terms_of work_width count rows.now) chains.now }
    requires term_nonzero { 0 < length term.now }
    ensures { result ≡ first_like term.now (terms_of work_width count rows.now) }
{
    let mark = mark_of(term);
    let mut at = usize::from(chains[mark]);
    // the places of a chain stand in no slice, one behind the other
    while 0 < at {
        let place = at - 1;
        if term == row::term_at(rows, row::WORK_WIDTH, place) {
            return place;
        }
        at = usize::from(chains[16384 + place]);
    }
    count
}

// The row at this place, which has this term, put first on the chain of the term's mark.
pub fn set_mark(chains: &mut [u16], term: &[u16], place: usize)
    requires chains_len { length chains.old ≡ mark_room + most_terms }
    requires place_lt_most_terms { place < most_terms }
    ensures { chains.new ≡ put_first mark_room (mark_of mark_room term.now) place chains.old }
{
    let mark = mark_of(term);
    chains[16384 + place] = chains[mark];
    chains[mark] = (place + 1) as u16;
}
