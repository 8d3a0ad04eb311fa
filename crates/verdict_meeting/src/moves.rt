// Moves from one pair of states to the next, and how many labels they take.
ghost use Rattle.std.specs.Prelude.{◌<◌, ◌≡◌};
ghost use Rattle.conflict.specs.Meeting.{agree, sooner, least, onward};
ghost use Rattle.tables.specs.Limits.{word_limit};

// Whether two steps can take one label.
#[tactic(auto, unfolding(conflict::specs::Meeting::agree))]
pub(crate) fn agreeing(x: usize, y: usize) -> bool
    ensures { result ≡ agree x y }
{
    x == 0 || y == 0 || x == y
}

// Of two numbers, 0 for none: whether the first is present, and the second is not or is no less.
#[tactic(auto, unfolding(conflict::specs::Meeting::sooner))]
pub(crate) fn is_sooner(m: usize, n: usize) -> bool
    ensures { result ≡ sooner m n }
{
    m != 0 && (n == 0 || m <= n)
}

// The least that is present.
pub(crate) fn least_of(m: usize, n: usize) -> usize
    ensures { result ≡ least m n }
{
    if is_sooner(m, n) {
        return m;
    }
    n
}

// One more, by a move that may be made.
#[tactic(auto, unfolding(conflict::specs::Meeting::onward))]
pub(crate) fn one_more(may: bool, n: usize) -> usize
    requires { n < word_limit }
    ensures { result ≡ onward may n }
{
    if !may || n == 0 {
        return 0;
    }
    n + 1
}
