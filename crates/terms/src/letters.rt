// The letters, and which of them three children give.
ghost use Rattle.std.specs.Prelude.{◌≡◌, ◌≤◌};
ghost use Rattle.terms.specs.Letters.{counted_letter, letter_byte, not_none};

#[derive(Clone, Copy)]
pub enum Letter {
    Nothing,
    X,
    Y,
    Z,
}

// The letter, from how many there are of X, Y and Z: a single odd one gives its own letter, two give the third, none or three give none.
pub fn counted_letter(xs: usize, ys: usize, zs: usize) -> Letter
    ensures { result ≡ counted_letter xs ys zs }
{
    // each parity a binary digit, X's the highest
    match 4 * (xs % 2) + 2 * (ys % 2) + zs % 2 {
        4 => Letter::X,
        2 => Letter::Y,
        1 => Letter::Z,
        3 => Letter::X,
        5 => Letter::Y,
        6 => Letter::Z,
        _ => Letter::Nothing,
    }
}

// A letter's byte, and where there is none this one.
// No conversion: the byte for no letter is the caller's.
pub fn byte(letter: Letter, none: u8) -> u8
    ensures { result ≡ letter_byte none letter }
{
    match letter {
        Letter::Nothing => none,
        Letter::X => b'X',
        Letter::Y => b'Y',
        Letter::Z => b'Z',
    }
}

// What a letter weighs: 1, and 0 where there is none.
// No conversion: the weight of a letter, a word of the definitions.
pub fn not_none(letter: Letter) -> usize
    ensures { (result ≡ not_none letter) × (result ≤ 1) }
{
    match letter {
        Letter::Nothing => 0,
        Letter::X | Letter::Y | Letter::Z => 1,
    }
}
