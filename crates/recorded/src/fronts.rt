// What a call left in a lent slice: the front that it wrote, and all behind it untouched.
use terms::row;

// What stands in a lent slice before a call: no index, label, code or zero is this number.
pub const UNTOUCHED: u16 = 40000;

// The same for a journal's byte, which no line of it has.
pub const UNTOUCHED_BYTE: u8 = 7;

// Every number is the one that stood there before the call.
pub fn untouched(numbers: &[u16]) -> bool {
    numbers.iter().all(|number| *number == UNTOUCHED)
}

// The numbers begin with the wanted ones, and nothing behind them was touched.
pub fn holds(numbers: &[u16], wanted: &[u16]) -> bool {
    let end = wanted.len();
    if numbers.len() < end {
        return false;
    }
    &numbers[..end] == wanted && untouched(&numbers[end..])
}

// So many numbers are zero, and nothing behind them was touched.
pub fn cleared(numbers: &[u16], end: usize) -> bool {
    if numbers.len() < end {
        return false;
    }
    numbers[..end].iter().all(|number| *number == 0) && untouched(&numbers[end..])
}

// The work numbers of a call on these terms, nine a term, are zero, and nothing behind them was touched.
pub fn work_cleared(work: &[u16], terms: &[u16]) -> bool {
    let count = terms.len() / row::WIDTH;
    if work.len() / row::WORK_WIDTH < count {
        return false;
    }
    cleared(work, row::WORK_WIDTH * count)
}

// No byte from this place on was touched.
pub fn bytes_untouched(bytes: &[u8], from: usize) -> bool {
    bytes.iter().skip(from).all(|byte| *byte == UNTOUCHED_BYTE)
}
