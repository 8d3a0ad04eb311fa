// A number where there is one: 0 stands for none.
ghost use Rattle.std.specs.Prelude.{◌≡◌};
ghost use Rattle.outcomes.specs.Numbers.{found_of};

pub fn found(n: usize) -> Option<usize>
    ensures { result ≡ found_of n }
{
    if n == 0 {
        return None;
    }
    Some(n)
}
