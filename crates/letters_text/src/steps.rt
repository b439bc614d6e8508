// The step that a word asks for.
ghost use Rattle.std.specs.Prelude.{◌≡◌, ◌<◌};
ghost use Rattle.letters_text.specs.Lettering.{asked};

use fields::numbers;

// The step that the word is, where it is a number below the modes.
pub fn asked_step(word: &[u8], modes: usize) -> Option<usize>
    ensures { result ≡ asked modes word.now }
{
    let [number] = numbers::numbers_of::<1>(word)?;
    let step = usize::from(number);
    if modes <= step {
        return None;
    }
    Some(step)
}
