// What can be wrong with a line of a scenario.
use paths::Refusal;
use scenario::TextError;
use sheet::ClassRefusal;
use simulated::BoardError;
use std::alloc::AllocError;
use std::fmt;

#[derive(Clone, Copy)]
pub enum Wrong {
    Spaces,
    Missing,
    TooMany,
    Unknown,
    NotYet,
    NoText,
    NoPath,
    NoName,
    NoNumber,
    LargeNumber,
    NoFollowMark,
    NoAnswer,
    NoCause,
    NoItem,
    FollowedLink,
    RelativeTarget,
    DonePath,
    NoBackend,
    SecondBackend,
    NoRoll,
    NoBoard,
    NoCatalogue,
    NoSheet,
    Slots,
    FullRoll,
    FullCatalogue,
    FullSheet,
    FullFilter,
    NoMemory,
}

impl fmt::Display for Wrong {
    fn fmt<W: fmt::Write>(&self, f: &mut fmt::Formatter<W>) -> fmt::Result {
        f.write_str(words(*self))
    }
}

impl From<AllocError> for Wrong {
    fn from(_: AllocError) -> Wrong {
        Wrong::NoMemory
    }
}

impl From<TextError> for Wrong {
    fn from(error: TextError) -> Wrong {
        match error {
            TextError::BadText => Wrong::NoText,
            TextError::NoMemory => Wrong::NoMemory,
        }
    }
}

impl From<Refusal> for Wrong {
    fn from(_: Refusal) -> Wrong {
        Wrong::NoPath
    }
}

impl From<BoardError> for Wrong {
    fn from(error: BoardError) -> Wrong {
        match error {
            BoardError::Slots => Wrong::Slots,
            BoardError::NoMemory => Wrong::NoMemory,
        }
    }
}

impl From<ClassRefusal> for Wrong {
    fn from(refusal: ClassRefusal) -> Wrong {
        match refusal {
            ClassRefusal::FollowedLink => Wrong::FollowedLink,
            ClassRefusal::Full => Wrong::FullSheet,
        }
    }
}

// The plain words for it; the word that is wrong follows.
fn words(wrong: Wrong) -> &'static str {
    match wrong {
        Wrong::Spaces => "two spaces, or one at an end, after",
        Wrong::Missing => "a word is missing after",
        Wrong::TooMany => "a word too many:",
        Wrong::Unknown => "no command:",
        Wrong::NotYet => "a call that is not there yet:",
        Wrong::NoText => "no text:",
        Wrong::NoPath => "no path within 8 names and 64 bytes:",
        Wrong::NoName => "no name:",
        Wrong::NoNumber => "no number:",
        Wrong::LargeNumber => "too large a number:",
        Wrong::NoFollowMark => "neither follow nor nofollow:",
        Wrong::NoAnswer => "no answer of a backend:",
        Wrong::NoCause => "no cause of a scanner:",
        Wrong::NoItem => "neither =NAME nor !CAUSE:",
        Wrong::FollowedLink => "no link with following on:",
        Wrong::RelativeTarget => "a link's target is absolute:",
        Wrong::DonePath => "done carries no path:",
        Wrong::NoBackend => "a board or a roll comes before",
        Wrong::SecondBackend => "there is a backend already:",
        Wrong::NoRoll => "the backend is no roll:",
        Wrong::NoBoard => "the backend is no board:",
        Wrong::NoCatalogue => "the scanner is no catalogue:",
        Wrong::NoSheet => "the scanner is no sheet:",
        Wrong::Slots => "a board has 1 to 64 slots:",
        Wrong::FullRoll => "the roll is full at",
        Wrong::FullCatalogue => "the catalogue has 64 nodes at",
        Wrong::FullSheet => "the sheet is full at",
        Wrong::FullFilter => "the filter has 16 names at",
        Wrong::NoMemory => "no memory for",
    }
}
