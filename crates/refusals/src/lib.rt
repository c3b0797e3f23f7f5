// Why a netlist, a list of changes or a call is turned back.
#![tactic(auto)]

ghost use Rattle.std.specs.Prelude.{◌≡◌};
ghost use Rattle.refusals.specs.Refusal.{number_of, place_of};

// Each case with its place, where that is not always the same one.
#[derive(Clone, Copy, Debug, PartialEq, Eq)]
pub enum Refusal {
    NetlistShort(usize),
    NetlistMark,
    NetlistVersion,
    Count(usize),
    CutOff(usize),
    Kind(usize),
    PinCount(usize),
    Pin(usize),
    Entry(usize),
    BytesLeft(usize),
    ListShort(usize),
    ListMark,
    ListVersion,
    Tie,
    Changes,
    ListLength(usize),
    SpareBit(usize),
    NoChange,
    NoOutput,
    BufferShort,
    // more signals than a caller keeps: for one that keeps fewer than the largest card has
    Signals,
}

impl Refusal {
    pub fn number(self) -> u8
        ensures { result ≡ number_of self }
    {
        match self {
            Refusal::NetlistShort(_) => 1,
            Refusal::NetlistMark => 2,
            Refusal::NetlistVersion => 3,
            Refusal::Count(_) => 4,
            Refusal::CutOff(_) => 5,
            Refusal::Kind(_) => 6,
            Refusal::PinCount(_) => 7,
            Refusal::Pin(_) => 8,
            Refusal::Entry(_) => 9,
            Refusal::BytesLeft(_) => 10,
            Refusal::ListShort(_) => 11,
            Refusal::ListMark => 12,
            Refusal::ListVersion => 13,
            Refusal::Tie => 14,
            Refusal::Changes => 15,
            Refusal::ListLength(_) => 16,
            Refusal::SpareBit(_) => 17,
            Refusal::NoChange => 18,
            Refusal::NoOutput => 19,
            Refusal::BufferShort => 20,
            Refusal::Signals => 23,
        }
    }

    pub fn place(self) -> usize
        ensures { result ≡ place_of self }
    {
        match self {
            Refusal::NetlistShort(at)
            | Refusal::Count(at)
            | Refusal::CutOff(at)
            | Refusal::Kind(at)
            | Refusal::PinCount(at)
            | Refusal::Pin(at)
            | Refusal::Entry(at)
            | Refusal::BytesLeft(at)
            | Refusal::ListShort(at)
            | Refusal::ListLength(at)
            | Refusal::SpareBit(at) => at,
            Refusal::NetlistVersion | Refusal::ListVersion => 3,
            Refusal::Tie | Refusal::Signals => 5,
            Refusal::Changes => 9,
            Refusal::NetlistMark
            | Refusal::ListMark
            | Refusal::NoChange
            | Refusal::NoOutput
            | Refusal::BufferShort => 0,
        }
    }
}
