// Why an operation is refused: the refusals 1 to 13 of document 01 and those of a batch, 14 and 15, each with its number, its place and, for a record, its byte.
#![tactic(auto)]

ghost use Rattle.std.specs.Prelude.{◌≡◌};
ghost use Rattle.refusals.specs.Numbers.{fault_number, fault_byte, at, of_record, told};

// What is wrong with a record: refusals 2 to 8. Where a number names one of two bytes it has a case for each; `Rest` holds the least byte at fault.
#[derive(Clone, Copy, Debug, PartialEq, Eq)]
pub enum Fault {
    Mark,
    Kind,
    Order,
    Rest(usize),
    Thread,
    Location,
    Parent,
    Source,
    Twin,
}

// Refusals 1 to 15; those with a place carry it.
#[derive(Clone, Copy, Debug, PartialEq, Eq)]
pub enum Refusal {
    Length,
    Record(Fault, usize),
    Selection,
    Incomplete(usize),
    Room,
    Full,
    Past(usize),
    Header(usize),
    Short(usize),
}

// What is told of a refusal: its number, its place, and the byte of a record, if one is named.
#[derive(Clone, Copy, Debug, PartialEq, Eq)]
pub struct Told {
    pub number: usize,
    pub place: usize,
    pub byte: Option<usize>,
}

impl Fault {
    fn number(self) -> usize
        ensures { result ≡ fault_number self }
    {
        match self {
            Fault::Mark => 2,
            Fault::Kind => 3,
            Fault::Order => 3,
            Fault::Rest(_) => 4,
            Fault::Thread => 5,
            Fault::Location => 5,
            Fault::Parent => 6,
            Fault::Source => 7,
            Fault::Twin => 8,
        }
    }

    // The byte of the record that is named.
    fn byte(self) -> usize
        ensures { result ≡ fault_byte self }
    {
        match self {
            Fault::Mark => 0,
            Fault::Kind => 2,
            Fault::Order => 3,
            Fault::Rest(i) => i,
            Fault::Thread => 4,
            Fault::Location => 7,
            Fault::Parent => 5,
            Fault::Source => 6,
            Fault::Twin => 5,
        }
    }
}

impl Told {
    fn at(number: usize, place: usize) -> Told
        ensures { result ≡ at number place }
    {
        Told {
            number,
            place,
            byte: None,
        }
    }

    // A record's refusal names the byte too.
    fn of_record(fault: Fault, place: usize) -> Told
        ensures { result ≡ of_record fault place }
    {
        Told {
            number: fault.number(),
            place,
            byte: Some(fault.byte()),
        }
    }
}

impl Refusal {
    // What is told of each.
    pub fn told(self) -> Told
        ensures { result ≡ told self }
    {
        match self {
            Refusal::Length => Told::at(1, 0),
            Refusal::Record(f, n) => Told::of_record(f, n),
            Refusal::Selection => Told::at(9, 0),
            Refusal::Incomplete(n) => Told::at(10, n),
            Refusal::Room => Told::at(11, 0),
            Refusal::Full => Told::at(12, 0),
            Refusal::Past(n) => Told::at(13, n),
            Refusal::Header(n) => Told::at(14, n),
            Refusal::Short(n) => Told::at(15, n),
        }
    }
}
