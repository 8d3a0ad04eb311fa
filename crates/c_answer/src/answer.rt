// The one answer of every exported function, and the two ways to make it.
ghost use Rattle.std.specs.Prelude.{◌≡◌};
ghost use Rattle.c_answer.specs.Answers.{refusing, giving};

use tables::refusal::Refusal;

// A refusal's number, 0 for none, with the table at fault and the place; then the values, 0 where unused or refused.
#[repr(C)]
#[derive(Clone, Copy)]
pub struct Answer {
    pub refusal: usize,
    pub table: usize,
    pub place: usize,
    pub first: usize,
    pub second: usize,
    pub third: usize,
    pub fourth: usize,
}

// A refusal, and no values.
pub fn refusing(r: Refusal) -> Answer
    ensures { result ≡ refusing r }
{
    Answer {
        refusal: r.reason.number(),
        table: r.table,
        place: r.place,
        first: 0,
        second: 0,
        third: 0,
        fourth: 0,
    }
}

// Values, and no refusal.
pub fn giving(first: usize, second: usize, third: usize, fourth: usize) -> Answer
    ensures { result ≡ giving first second third fourth }
{
    Answer {
        refusal: 0,
        table: 0,
        place: 0,
        first,
        second,
        third,
        fourth,
    }
}
