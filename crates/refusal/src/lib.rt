// Why a call refuses: a case for each number of document 01's table, holding the place where the table gives one.
#![tactic(auto)]

ghost use Rattle.std.specs.Prelude.{◌≡◌};
ghost use Rattle.refusal.specs.Numbers.{number_of, place_of};

#[derive(Clone, Copy, PartialEq, Eq)]
pub enum Refusal {
    // 1: modes are 0 or above 256
    Modes,
    // 2: term numbers not a multiple of 8
    TermNumbers,
    // 3: more than 2048 terms
    TooManyTerms,
    // 4: the first bad row
    BadRow(usize),
    // 5: a buffer below its room
    Room,
    // 6: the line breaks the form
    LineForm(usize),
    // 7: the header's rule, modes or terms differ
    Header,
    // 8: the line's step isn't the next
    StepNotNext(usize),
    // 9: a child of the line isn't open
    ChildNotOpen(usize),
    // 10: the line's triple isn't lawful
    NotLawful(usize),
    // 11: the line's weight is untrue
    WeightUntrue(usize),
    // 12: a complete line after the last merge
    LineAfterLast(usize),
    // 13: the tree table isn't 3n long
    TreeLength,
    // 14: the first code neither below 3n nor the absent child
    ChildCode(usize),
    // 15: not one tree with each part once
    NotOneTree,
    // 16: the least k whose pair is wrong
    WrongPair(usize),
    // 17: no heuristic has this number
    Heuristic,
    // 18: the line of the program's text is malformed
    Malformed(usize),
    // 19: the first byte that no Newick text can go on with, or the text's end
    NewickForm(usize),
    // 20: no rule of reduction has this number
    Rule,
    // 22: more modes than every sequence of merges is gone through for
    TooManyToTry,
    // 1 again, of a Newick text: the `(` of the first node beyond 256
    TooManyNodes(usize),
}

// The refusal's number in document 01's table.
pub fn number(refusal: Refusal) -> usize
    ensures { result ≡ number_of refusal }
{
    match refusal {
        Refusal::Modes => 1,
        Refusal::TermNumbers => 2,
        Refusal::TooManyTerms => 3,
        Refusal::BadRow(_) => 4,
        Refusal::Room => 5,
        Refusal::LineForm(_) => 6,
        Refusal::Header => 7,
        Refusal::StepNotNext(_) => 8,
        Refusal::ChildNotOpen(_) => 9,
        Refusal::NotLawful(_) => 10,
        Refusal::WeightUntrue(_) => 11,
        Refusal::LineAfterLast(_) => 12,
        Refusal::TreeLength => 13,
        Refusal::ChildCode(_) => 14,
        Refusal::NotOneTree => 15,
        Refusal::WrongPair(_) => 16,
        Refusal::Heuristic => 17,
        Refusal::Malformed(_) => 18,
        Refusal::NewickForm(_) => 19,
        Refusal::Rule => 20,
        Refusal::TooManyToTry => 22,
        Refusal::TooManyNodes(_) => 1,
    }
}

// The refusal's place; 0 where the table gives none.
pub fn place(refusal: Refusal) -> usize
    ensures { result ≡ place_of refusal }
{
    match refusal {
        Refusal::Modes => 0,
        Refusal::TermNumbers => 0,
        Refusal::TooManyTerms => 0,
        Refusal::BadRow(row) => row,
        Refusal::Room => 0,
        Refusal::LineForm(line) => line,
        Refusal::Header => 0,
        Refusal::StepNotNext(line) => line,
        Refusal::ChildNotOpen(line) => line,
        Refusal::NotLawful(line) => line,
        Refusal::WeightUntrue(line) => line,
        Refusal::LineAfterLast(line) => line,
        Refusal::TreeLength => 0,
        Refusal::ChildCode(index) => index,
        Refusal::NotOneTree => 0,
        Refusal::WrongPair(pair) => pair,
        Refusal::Heuristic => 0,
        Refusal::Malformed(line) => line,
        Refusal::NewickForm(byte) => byte,
        Refusal::Rule => 0,
        Refusal::TooManyToTry => 0,
        Refusal::TooManyNodes(byte) => byte,
    }
}
