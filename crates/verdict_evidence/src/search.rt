// Searches in rows: the first node that is chosen.
ghost use Rattle.std.specs.Prelude.{◌+◌, ◌≤◌, ◌≡◌, ◌&&◌};
ghost use Rattle.tables.specs.Limits.{word_limit};
ghost use Rattle.doc_updates.specs.Asking.{chosen};
ghost use Rattle.verdict_evidence.specs.Finding.{first_of};

use tables::words::byte;

// Whether both rows have 1 at v.
#[tactic(auto, unfolding(doc_updates::specs::Asking::chosen))]
fn both(row: &[u8], cut: &[u8], v: usize) -> bool
    ensures { result ≡ (chosen row.now v && chosen cut.now v) }
{
    byte(row, v) == 1 && byte(cut, v) == 1
}

// The first node below n at which both rows have 1, n for none.
pub(crate) fn first_both(row: &[u8], cut: &[u8], n: usize) -> usize
    ensures { result ≡ first_of (λ v. chosen row.now v && chosen cut.now v) n }
{
    for v in 0..n {
        if both(row, cut, v) {
            return v;
        }
    }
    n
}

// The first of the n nodes from `base` on at which the row has 1, counted from there, n for none.
pub(crate) fn first_behind(row: &[u8], base: usize, n: usize) -> usize
    requires { base + n ≤ word_limit }
    ensures { result ≡ first_of (λ k. chosen row.now (base + k)) n }
{
    for k in 0..n {
        if byte(row, base + k) == 1 {
            return k;
        }
    }
    n
}
