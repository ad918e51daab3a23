// The ten worked examples.
ghost use Rattle.std.specs.Prelude.{◌≡◌};
ghost use Rattle.rules.specs.Cards.{Cards};

// The worked examples hold of the definitions; the number says how many they are.
pub fn cards_hold() -> u8
    ensures cards { Cards }
    ensures value { result ≡ 10 }
{
    10
}
