// Identities for the copies of an insert.
ghost use Rattle.std.specs.Prelude.{◌+◌, ◌≤◌, ◌≡◌, ◌++◌, length, drop};
ghost use Rattle.tables.specs.Limits.{identity_limit};
ghost use Rattle.selection.specs.Lists.{tab};
ghost use Rattle.identities.specs.Updates.{given};
ghost use Rattle.doc_insert.specs.Planning.{Nameable};

// The first n of the free identities, from the next one on.
fn give(n: usize, next: u32, free: &mut [u32])
    requires { (n ≤ length free.old) × (next + n ≤ identity_limit) }
    ensures { free.new ≡ tab (λ k. next + k) n ++ drop n free.old }
{
    for k in 0..n {
        free[k] = next + k as u32;
    }
}

// The next identities for the n nodes behind the used ones: the free rest of the row is lent.
pub(crate) fn name_copies(ids: &mut [u32], used: usize, n: usize, next: u32)
    requires { Nameable ids.old used n next }
    ensures { ids.new ≡ given ids.old used n next }
{
    give(n, next, &mut ids[used..]);
}
