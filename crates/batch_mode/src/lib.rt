// The two modes of a plan and their numbers.
#![tactic(auto)]

ghost use Rattle.std.specs.Prelude.{◌≡◌};
ghost use Rattle.batch_mode.specs.Modes.{mode_check, mode_of, Named};

use tables::refusal::{Reason, Refusal};

// Node: a read's nodes count. Deep: also what lies below them.
#[derive(Clone, Copy, Debug, PartialEq, Eq)]
pub enum Mode {
    Node,
    Deep,
}

// The mode that a number names: 1 node, 2 deep; refusal 8 for another.
impl TryFrom<usize> for Mode {
    type Error = Refusal;

    ghost try_from_gives = { Named };

    #[tactic(auto, unfolding(crate::specs::Modes::mode_check, crate::specs::Modes::mode_of))]
    fn try_from(word: usize) -> Result<Mode, Refusal> {
        match word {
            1 => Ok(Mode::Node),
            2 => Ok(Mode::Deep),
            _ => Err(Refusal {
                reason: Reason::Kind,
                table: 6,
                place: 1,
            }),
        }
    }
}

// Whether a number names a mode: refusal 8.
#[tactic(auto, unfolding(crate::specs::Modes::mode_check))]
pub fn mode_check(word: usize) -> Result<(), Refusal>
    ensures { result ≡ mode_check word }
{
    Mode::try_from(word)?;
    Ok(())
}

// The mode that a number names: 1 is node, every other is taken for deep.
pub fn mode_of(word: usize) -> Mode
    ensures { result ≡ mode_of word }
{
    Mode::try_from(word).unwrap_or(Mode::Deep)
}
