// The checks of patterns, trees and documents. None has a value.
ghost use Rattle.std.specs.Prelude.{◌≡◌};
ghost use Rattle.tables.specs.Checks.{pattern_check, tree_check};
ghost use Rattle.identities.specs.Documents.{document};
ghost use Rattle.identities.specs.Checks.{whole_check};
ghost use Rattle.c_numbers.specs.Numbers.{of_checked};

use c_answer::answer::Answer;
use c_numbers::numbers;
use check_identities::whole;
use check_pattern::pattern;
use check_tree::tree;

// A pattern of at most `limit` steps: refusals 1, 2, 3, at this table.
pub fn sloefertand_check_pattern(p: &[u16], limit: usize, table: usize) -> Answer
    ensures { result ≡ of_checked (pattern_check p.now limit table) }
{
    numbers(pattern(p, limit, table))
}

// A tree of at most `limit` nodes: refusals 1, 2, then node by node 4 before 5, at this table.
pub fn sloefertand_check_tree(t: &[u16], limit: usize, table: usize) -> Answer
    ensures { result ≡ of_checked (tree_check t.now limit table) }
{
    numbers(tree(t, limit, table))
}

// A document: 12 for the used count, node by node 4 then 5, 12 for marks, 12 for identities.
pub fn sloefertand_v2_check_document(
    rows: &[u16],
    marks: &[u8],
    used: usize,
    ids: &[u32],
    next: u32,
) -> Answer
    ensures { result ≡ of_checked (whole_check (document rows.now marks.now used ids.now next)) }
{
    numbers(whole(rows, marks, used, ids, next))
}
