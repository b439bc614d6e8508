// Fronts of slices of numbers: written over and cleared, in the words that the definitions have for that.
ghost use Rattle.std.specs.Prelude.{◌≡◌, ◌≤◌, length, take, replicate};
ghost use Rattle.lists.specs.Written.{written_at};

// The numbers written over the front of others, said in the definitions' word `written_at`, which std's method has not.
#[tactic(auto, unfolding(lists::specs::Written::written_at))]
pub fn put_front(from: &[u16], to: &mut [u16])
    requires { length from.now ≤ length to.old }
    ensures to_after { to.new ≡ written_at 0 from.now to.old }
    ensures to_after_2 { take (length from.now) to.new ≡ from.now }
{
    to[..from.len()].copy_from_slice(from);
}

// Zeros over the first `count` numbers, said in that word too.
#[tactic(auto, unfolding(lists::specs::Written::written_at))]
pub fn clear_front(numbers: &mut [u16], count: usize)
    requires { count ≤ length numbers.old }
    ensures { numbers.new ≡ written_at 0 (replicate count 0) numbers.old }
{
    numbers[..count].fill(0);
}
