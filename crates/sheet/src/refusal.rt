// Why a classification is not set.
ghost use Rattle.std.specs.Prelude.{◌≡◌};
ghost use Rattle.sheet.specs.declared.refusal.ClassRefusal.TheVariants.{Full};

use tables::NoPlace;

// A scanner never answers that a path is a link when it follows links.
#[derive(Clone, Copy, Debug, PartialEq, Eq)]
pub enum ClassRefusal {
    Full,
    FollowedLink,
}

impl From<NoPlace> for ClassRefusal {
    ghost from_gives = { λ _ r. r ≡ Full };

    fn from(_: NoPlace) -> ClassRefusal {
        ClassRefusal::Full
    }
}
