ghost use Rattle.std.specs.Prelude.{◌≡◌};
ghost use Rattle.tables.specs.Refusals.{itself, number, numbered};
ghost use Rattle.tables.specs.declared.refusal.Reason.{Reason};

// Why something is refused: documents 01 and 02 number these reasons from 1, in this order.
#[derive(Clone, Copy, Debug, PartialEq, Eq)]
pub enum Reason {
    Words,
    Limit,
    Axis,
    Parent,
    Label,
    OneStep,
    Output,
    Kind,
    Ends,
    Batch,
    Room,
    Document,
    Line,
    Form,
    Name,
    Identity,
}

impl Reason {
    // Its number in the documents.
    pub fn number(self) -> usize
        ensures { result ≡ number self }
    {
        match self {
            Reason::Words => 1,
            Reason::Limit => 2,
            Reason::Axis => 3,
            Reason::Parent => 4,
            Reason::Label => 5,
            Reason::OneStep => 6,
            Reason::Output => 7,
            Reason::Kind => 8,
            Reason::Ends => 9,
            Reason::Batch => 10,
            Reason::Room => 11,
            Reason::Document => 12,
            Reason::Line => 13,
            Reason::Form => 14,
            Reason::Name => 15,
            Reason::Identity => 16,
        }
    }
}

// A refusal: why, the table at fault (1 read, 2 update, 3 inserted tree, 4 output or room, 5 document, 6 batch, 7 text, 8 list of names), and
// a place.
#[derive(Clone, Copy, Debug, PartialEq, Eq)]
pub struct Refusal {
    pub reason: Reason,
    pub table: usize,
    pub place: usize,
}

// What a refusal can be made of: a reason, or the number of one.
pub trait Why {
    ghost why: { Self → Reason };

    fn reason(self) -> Reason
        ensures { result ≡ why self };
}

impl Why for Reason {
    ghost why = { itself };

    fn reason(self) -> Reason {
        self
    }
}

// A number that no reason has is taken for 1.
impl Why for usize {
    ghost why = { numbered };

    fn reason(self) -> Reason {
        match self {
            2 => Reason::Limit,
            3 => Reason::Axis,
            4 => Reason::Parent,
            5 => Reason::Label,
            6 => Reason::OneStep,
            7 => Reason::Output,
            8 => Reason::Kind,
            9 => Reason::Ends,
            10 => Reason::Batch,
            11 => Reason::Room,
            12 => Reason::Document,
            13 => Reason::Line,
            14 => Reason::Form,
            15 => Reason::Name,
            16 => Reason::Identity,
            _ => Reason::Words,
        }
    }
}

// The refusal for a reason, or for the number of one.
pub fn refused<W: Why>(why: W, table: usize, place: usize) -> Result<(), Refusal>
    ensures { result ≡ Err (record { reason = W.why why; table = table; place = place }) }
{
    Err(Refusal {
        reason: why.reason(),
        table,
        place,
    })
}
