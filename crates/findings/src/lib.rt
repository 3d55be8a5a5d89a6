// The findings, what a search finds of one, and the verdict, as values.
#![tactic(auto)]

ghost use Rattle.std.specs.Prelude.{◌≡◌, ◌<◌, length};
ghost use Rattle.findings.specs.Family.{all_in_order, finding_at, in_second, name_of, there, found_of};

// The seven findings, in the order of the report.
#[derive(Clone, Copy, Debug, PartialEq, Eq)]
pub enum Finding {
    R,
    A1,
    A2,
    A3,
    A4,
    A5,
    W,
}

// What a search finds: nothing, one record, two records, or a cycle of so many, whose records stand in a lent buffer.
#[derive(Clone, Copy, Debug, PartialEq, Eq)]
pub enum Found {
    Nothing,
    Record(usize),
    Pair(usize, usize),
    Cycle(usize),
}

// What was found of each finding.
#[derive(Clone, Copy, Debug, PartialEq, Eq)]
pub struct Findings {
    pub r: Found,
    pub a1: Found,
    pub a2: Found,
    pub a3: Found,
    pub a4: Found,
    pub a5: Found,
    pub w: Found,
}

#[derive(Clone, Copy, Debug, PartialEq, Eq)]
pub enum Verdict {
    Undefined,
    Inconsistent,
    Consistent,
}

impl Finding {
    // How many there are.
    pub const COUNT: usize = 7;

    // All of them, in the order of the report.
    pub const IN_ORDER: [Finding; Finding::COUNT] = [
        Finding::R,
        Finding::A1,
        Finding::A2,
        Finding::A3,
        Finding::A4,
        Finding::A5,
        Finding::W,
    ];

    // The finding at a place of the report, from 0 on.
    pub fn at(place: usize) -> Finding
        requires { place < length all_in_order }
        ensures { result ≡ finding_at place }
    {
        Finding::IN_ORDER[place]
    }

    // Its name.
    pub fn name(self) -> &'static [u8]
        ensures { result.now ≡ name_of self }
    {
        match self {
            Finding::R => b"R",
            Finding::A1 => b"A1",
            Finding::A2 => b"A2",
            Finding::A3 => b"A3",
            Finding::A4 => b"A4",
            Finding::A5 => b"A5",
            Finding::W => b"W",
        }
    }

    // Whether a cycle that shows it stands in the second of the two lent buffers: that of A4.
    pub fn in_second(self) -> bool
        ensures { result ≡ in_second self }
    {
        self == Finding::A4
    }
}

impl Found {
    // Whether there is a witness.
    pub fn there(self) -> bool
        ensures { result ≡ there self }
    {
        !matches!(self, Found::Nothing)
    }
}

impl Findings {
    // What was found of one.
    pub fn of(self, finding: Finding) -> Found
        ensures { result ≡ found_of self finding }
    {
        match finding {
            Finding::R => self.r,
            Finding::A1 => self.a1,
            Finding::A2 => self.a2,
            Finding::A3 => self.a3,
            Finding::A4 => self.a4,
            Finding::A5 => self.a5,
            Finding::W => self.w,
        }
    }
}
