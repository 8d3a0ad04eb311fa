// Sets of steps in numbers of 64 bits, a word at a time.
#![tactic(auto)]

ghost use Rattle.std.specs.Prelude.{◌≡◌, ◌&&◌, ◌||◌, eqb};
ghost use Rattle.pattern_set.specs.Sets.{bit, next_set, Word};

// Steps in a word.
pub const WORD_STEPS: usize = 64;

// A word of the set of a node: the steps that agree with its label, moved on by one from above, and those that stay from above.
// `first` says whether the step before the word's first one stands above.
pub fn next(above: u64, agreeing: u64, staying: u64, first: bool) -> u64
    ensures { Word (next_set (bit agreeing) (bit staying) first (bit above)) 0 result }
{
    (agreeing & ((above << 1) | (first as u64))) | (staying & above)
}

// The word with step i in it besides; a step behind the word's last is not put in.
pub fn with(s: u64, i: usize) -> u64
    ensures { Word (λ j. bit s j || eqb j i) 0 result }
{
    if WORD_STEPS <= i {
        return s;
    }
    s | (1 << i)
}

// The steps that are in both words.
pub fn common(a: u64, b: u64) -> u64
    ensures { Word (λ i. bit a i && bit b i) 0 result }
{
    a & b
}

// Whether step i is in the word.
pub fn has(s: u64, i: usize) -> bool
    ensures { result ≡ bit s i }
{
    if i < WORD_STEPS {
        return (s >> i) % 2 == 1;
    }
    false
}
