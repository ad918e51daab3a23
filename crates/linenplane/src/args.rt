// The words of a command, taken one by one, and what each may stand for.
ghost use Rattle.std.specs.Prelude.{◌≡◌, ◌<◌, ◌≤◌, IfOk, IfSome, Some};
ghost use Rattle.scenario.specs.Escapes.{decoded};
ghost use Rattle.scenario.specs.Numbers.{numeral};
ghost use Rattle.linenplane.specs.Args.{left};

use crate::wrong::Wrong;
use paths::{Name, Path, absolute};
use scenario::{Words, decode, number};
use std::alloc::Global;

// The word that was taken last is the one that is wrong if anything is.
#[derive(Drop)]
pub struct Args<'a> {
    heap: Global,
    words: Words<'a>,
    pub last: &'a [u8],
}

impl<'a> Args<'a> {
    pub fn new(heap: Global, line: &'a [u8]) -> Args<'a> {
        Args {
            heap,
            words: Words::new(line),
            last: b"the line's start",
        }
    }

    // The next word, if there is one.
    pub fn next(&mut self) -> Result<Option<&'a [u8]>, Wrong>
        ensures { IfOk result (λ word. IfSome word (λ _. left self.new < left self.old)) }
    {
        let Some(word) = self.words.next_word() else {
            return Ok(None);
        };
        if word.bytes.is_empty() {
            return Err(Wrong::Spaces);
        }
        self.last = word.bytes;
        Ok(Some(word.bytes))
    }

    pub fn word(&mut self) -> Result<&'a [u8], Wrong> {
        self.next()?.ok_or(Wrong::Missing)
    }

    // There are no more words.
    pub fn end(&mut self) -> Result<(), Wrong> {
        match self.next()? {
            Some(_) => Err(Wrong::TooMany),
            None => Ok(()),
        }
    }

    pub fn text(&mut self) -> Result<Vec<u8>, Wrong> {
        read_text(self.heap, self.word()?)
    }

    // Into a place that the caller lends, since no result holds a path.
    pub fn path(&mut self, place: &mut Path) -> Result<(), Wrong> {
        read_path(self.heap, self.word()?, place)
    }

    // The path of a link's target, whose text is absolute.
    // Into a place that the caller lends, since no result holds a path.
    pub fn target(&mut self, place: &mut Path) -> Result<(), Wrong> {
        let word = self.word()?;
        if !word.starts_with(b"/") {
            return Err(Wrong::RelativeTarget);
        }
        read_path(self.heap, word, place)
    }

    pub fn name(&mut self) -> Result<Name, Wrong> {
        read_name(self.heap, self.word()?)
    }

    // A number that is at most the greatest one allowed.
    pub fn number(&mut self, most: u64) -> Result<u64, Wrong>
        ensures { IfOk result (λ n. n ≤ most) }
    {
        read_number(self.word()?, most)
    }

    pub fn follow(&mut self) -> Result<bool, Wrong> {
        match self.word()? {
            b"follow" => Ok(true),
            b"nofollow" => Ok(false),
            _ => Err(Wrong::NoFollowMark),
        }
    }
}

pub fn read_text(heap: Global, word: &[u8]) -> Result<Vec<u8>, Wrong>
    ensures { IfOk result (λ t. decoded word.now ≡ Some t.items) }
{
    Ok(decode(heap, word)?)
}

// Puts the path that a text names below "/" into the place.
// Into a place that the caller lends, since no result holds a path.
pub fn read_path(heap: Global, word: &[u8], place: &mut Path) -> Result<(), Wrong> {
    let text = read_text(heap, word)?;
    Ok(absolute(&Path::root(), &text, place)?)
}

pub fn read_name(heap: Global, word: &[u8]) -> Result<Name, Wrong>
    ensures { IfOk result (λ n. decoded word.now ≡ Some n) }
{
    let text = read_text(heap, word)?;
    Name::new(&text).ok_or(Wrong::NoName)
}

pub fn read_number(word: &[u8], most: u64) -> Result<u64, Wrong>
    ensures { IfOk result (λ n. (numeral word.now ≡ Some n) × (n ≤ most)) }
{
    let n = number(word).ok_or(Wrong::NoNumber)?;
    if n > most {
        return Err(Wrong::LargeNumber);
    }
    Ok(n)
}
