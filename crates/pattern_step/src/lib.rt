// One step of a pattern: whether it stays.
#![tactic(auto)]

ghost use Rattle.std.specs.Prelude.{◌≡◌};
ghost use Rattle.selection.specs.Ways.{stays};

use tables::words::first_word;

// Whether step i, once landed, also stays for every node below: where the next axis is descendant; for the last step, as the caller says.
pub fn stays(p: &[u16], below: bool, i: usize) -> bool
    ensures { result ≡ stays p.now below i }
{
    let n = p.len() / 2;
    if n <= i {
        return below;
    }
    if n <= i + 1 {
        return below;
    }
    first_word(p, i + 1) == 2
}
