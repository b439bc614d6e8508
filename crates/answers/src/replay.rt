// The recorded cases of a file, one after the other, each asked anew and counted.
ghost use Rattle.std.specs.Prelude.{◌+◌, ◌≤◌, ◌<◌, length};

// How many cases were asked anew, how many of them differ, and the number of the first that does, counted from 1.
#[derive(Clone, Copy, Default)]
pub struct Tally {
    pub cases: usize,
    pub different: usize,
    pub first: usize,
}

impl Tally {
    // The tally with one case more, which agrees or differs.
    fn counted(self, agrees: bool) -> Tally
        requires { (self.cases < 18446744073709551615) × (self.different ≤ self.cases) }
        ensures { (result.cases ≤ self.cases + 1) × (result.different ≤ result.cases) }
    {
        let cases = self.cases + 1;
        if agrees {
            return Tally { cases, ..self };
        }
        let first = if self.different == 0 {
            cases
        } else {
            self.first
        };
        Tally {
            cases,
            different: self.different + 1,
            first,
        }
    }
}

// How long the first case is: it ends before the next line that begins one, or with the text.
fn case_length(text: &[u8]) -> usize
    ensures { (result ≤ length text.now) × (0 < length text.now → 0 < result) }
{
    let mut length = 0;
    for line in text.split_inclusive(|byte| *byte == b'\n') {
        if 0 < length && line.starts_with(b"modes\t") {
            break;
        }
        length += line.len();
    }
    length
}

// Every case of the text asked anew, by what tells whether the library agrees with it.
pub fn replay<F: Fn(&[u8]) -> bool>(agrees: F, text: &[u8]) -> Tally
    requires { F.IsAlwaysCallable agrees }
{
    let mut tally = Tally::default();
    let mut rest = text;
    while !rest.is_empty() {
        let (case, behind) = rest.split_at(case_length(rest));
        tally = tally.counted(agrees(case));
        rest = behind;
    }
    tally
}
