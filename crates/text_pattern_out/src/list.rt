// The names of a list: how many, where each begins and how long it is.
ghost use Rattle.std.specs.Prelude.{◌-◌, ◌<◌, ◌≡◌, length};
ghost use Rattle.text_parts.specs.Next.{next};
ghost use Rattle.text_names.specs.Names.{feed, lines};
ghost use Rattle.text_pattern_out.specs.Lookup.{NameFrom};

use text_parts::next_byte;

// How many names a list has.
pub(crate) fn names(list: &[u8]) -> usize
    ensures { result ≡ length (lines list.now) }
{
    let n = list.len();
    let mut count = 0;
    let mut from = 0;
    while from < n {
        let to = next_byte(list, from, 10);
        if n <= to {
            return count;
        }
        from = to + 1;
        count += 1;
    }
    count
}

// Where name k begins, from 0.
pub(crate) fn name_from(list: &[u8], k: usize) -> usize
    requires { k < length (lines list.now) }
    ensures { NameFrom list.now k result }
{
    let mut from = 0;
    for _i in 0..k {
        from = next_byte(list, from, 10) + 1;
    }
    from
}

// How many bytes stand from here up to the next line feed.
pub(crate) fn name_length(list: &[u8], from: usize) -> usize
    ensures { result ≡ next feed list.now from - from }
{
    next_byte(list, from, 10) - from
}
