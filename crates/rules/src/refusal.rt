// Why a call is refused.
ghost use Rattle.std.specs.Prelude.{◌≡◌};
ghost use Rattle.paths.specs.Model.{number as text_number};
ghost use Rattle.rules.specs.Refusals.{refused, textual};

// NoRoom tells how many faults the call wrote before it stopped.
#[derive(Clone, Copy, Debug, PartialEq, Eq)]
pub enum Refusal {
    TextLong,
    ZeroByte,
    CwdRelative,
    TooDeep,
    PathsMany,
    ListShort,
    Stranded,
    EpochEnd,
    NoRoom(usize),
}

impl Refusal {
    // The numbers are written out: the rules give each refusal its own, with gaps, and one carries a value.
    pub fn number(self) -> u8
        ensures { result ≡ (refused self).number }
    {
        match self {
            Refusal::TextLong => 1,
            Refusal::ZeroByte => 2,
            Refusal::CwdRelative => 3,
            Refusal::TooDeep => 4,
            Refusal::PathsMany => 5,
            Refusal::ListShort => 6,
            Refusal::Stranded => 11,
            Refusal::EpochEnd => 12,
            Refusal::NoRoom(_) => 13,
        }
    }
}

// A text's refusal is the call's.
impl From<paths::Refusal> for Refusal {
    ghost from_gives = { λ c r. refused r ≡ textual (text_number c) };

    fn from(refusal: paths::Refusal) -> Refusal {
        match refusal {
            paths::Refusal::TextLong => Refusal::TextLong,
            paths::Refusal::ZeroByte => Refusal::ZeroByte,
            paths::Refusal::TooDeep => Refusal::TooDeep,
        }
    }
}
