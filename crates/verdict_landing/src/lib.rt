// The label at which a move of a read and an update lands.
#![tactic(auto)]

ghost use Rattle.std.specs.Prelude.{◌≡◌};
ghost use Rattle.tables.specs.Words.{tag};
ghost use Rattle.conflict.specs.Meeting.{shared};
ghost use Rattle.verdict_landing.specs.Landing.{label_of};

// The label of step v, 0 outside the table.
fn label_word(t: &[u16], v: usize) -> u16
    ensures { result ≡ tag t.now v }
{
    if v < t.len() / 2 {
        return t[2 * v + 1];
    }
    0
}

// The label at which two steps that agree land.
fn shared_label(x: u16, y: u16) -> u16
    ensures { result ≡ shared x y }
{
    if x == 0 {
        if y == 0 {
            return 1;
        }
        return y;
    }
    x
}

// The label at which move m lands, of the read in state i and the update in state j; a step alone lands as beside a wildcard.
pub fn landing_at(r: &[u16], p: &[u16], i: usize, j: usize, m: usize) -> u16
    ensures { result ≡ label_of r.now p.now i j m }
{
    let x = label_word(r, i);
    let y = label_word(p, j);
    if m == 0 {
        return shared_label(x, y);
    }
    if m == 1 {
        return shared_label(x, 0);
    }
    shared_label(y, 0)
}
