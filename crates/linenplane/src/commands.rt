// The words that begin a line.
ghost use Rattle.std.specs.Prelude.{◌≡◌, map, ok_or};
ghost use Rattle.linenplane.specs.Commands.{beside, command, KindByKind};
ghost use Rattle.linenplane.specs.declared.wrong.Wrong.TheVariants.{Unknown};

use crate::wrong::Wrong;
use scenario::is_word;

#[derive(Clone, Copy)]
pub enum Command {
    Scenario,
    Backend(BackendCommand),
    Scanner(ScannerCommand),
    Filter(FilterCommand),
    Ask(Question),
    // A call of the recursor.
    Call,
}

#[derive(Clone, Copy)]
pub enum BackendCommand {
    Board,
    Roll,
    Answer,
}

#[derive(Clone, Copy)]
pub enum ScannerCommand {
    Catalogue,
    Sheet,
    Dir,
    File,
    Link,
    Class,
    List,
    Unlist,
    Strike,
}

#[derive(Clone, Copy)]
pub enum FilterCommand {
    Filter,
    Deny,
    Balk,
    Faults,
}

#[derive(Clone, Copy)]
pub enum Question {
    Look,
    Items,
    Watch,
    Unwatch,
    Fill,
    Verdict,
}

impl TryFrom<&[u8]> for Command {
    type Error = Wrong;

    ghost try_from_gives = { λ word r. r ≡ ok_or (command word.now) Unknown };

    fn try_from(word: &[u8]) -> Result<Command, Wrong> {
        beside(&COMMANDS, word).ok_or(Wrong::Unknown)
    }
}

// What stands beside that word in a table.
fn beside(table: &[(&[u8], Command)], word: &[u8]) -> Option<Command>
    ensures value { result ≡ beside word.now (map (λ r. (r.0.now, r.1)) table.now) }
    ensures kinds { KindByKind }
{
    table
        .iter()
        .find(|row| is_word(word, row.0))
        .map(|row| row.1)
}

const COMMANDS: [(&[u8], Command); 34] = [
    (b"scenario", Command::Scenario),
    (b"board", Command::Backend(BackendCommand::Board)),
    (b"roll", Command::Backend(BackendCommand::Roll)),
    (b"answer", Command::Backend(BackendCommand::Answer)),
    (b"catalogue", Command::Scanner(ScannerCommand::Catalogue)),
    (b"sheet", Command::Scanner(ScannerCommand::Sheet)),
    (b"dir", Command::Scanner(ScannerCommand::Dir)),
    (b"file", Command::Scanner(ScannerCommand::File)),
    (b"link", Command::Scanner(ScannerCommand::Link)),
    (b"strike", Command::Scanner(ScannerCommand::Strike)),
    (b"class", Command::Scanner(ScannerCommand::Class)),
    (b"list", Command::Scanner(ScannerCommand::List)),
    (b"unlist", Command::Scanner(ScannerCommand::Unlist)),
    (b"filter", Command::Filter(FilterCommand::Filter)),
    (b"deny", Command::Filter(FilterCommand::Deny)),
    (b"balk", Command::Filter(FilterCommand::Balk)),
    (b"faults", Command::Filter(FilterCommand::Faults)),
    (b"look", Command::Ask(Question::Look)),
    (b"items", Command::Ask(Question::Items)),
    (b"watch", Command::Ask(Question::Watch)),
    (b"unwatch", Command::Ask(Question::Unwatch)),
    (b"fill", Command::Ask(Question::Fill)),
    (b"verdict", Command::Ask(Question::Verdict)),
    (b"open", Command::Call),
    (b"reconcile", Command::Call),
    (b"created", Command::Call),
    (b"removed", Command::Call),
    (b"doubtful", Command::Call),
    (b"renamed", Command::Call),
    (b"step", Command::Call),
    (b"run", Command::Call),
    (b"public", Command::Call),
    (b"close", Command::Call),
    (b"show", Command::Call),
];
