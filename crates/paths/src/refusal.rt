// Why a text is not taken for a path.
ghost use Rattle.std.specs.Prelude.{◌≡◌};
ghost use Rattle.paths.specs.Model.{number as number_of};

#[derive(Clone, Copy, Debug, PartialEq, Eq)]
pub enum Refusal {
    TextLong,
    ZeroByte,
    TooDeep,
}

impl Refusal {
    // The number that the rules give it and the program prints: `u8::from` would not say of what.
    pub fn number(self) -> u8
        ensures { result ≡ number_of self }
    {
        match self {
            Refusal::TextLong => 1,
            Refusal::ZeroByte => 2,
            Refusal::TooDeep => 4,
        }
    }
}
