// A line of a scenario: whether it is passed over, and its words.
ghost use Rattle.std.specs.Prelude.{◌≡◌, ◌+◌, ◌<◌, ◌^◌, ◌∷◌, length};
ghost use Rattle.std.specs.Option.{option_map};
ghost use Rattle.std.specs.Iterator.{YieldsFirstBy, item_count};
ghost use Rattle.std.specs.Str.{bytes_eq};
ghost use Rattle.scenario.specs.Words.{blank, words, placed};
ghost use Rattle.scenario.specs.Rest.{rest_len, rest_words};

// A word of a line, with the column where it begins, from 1.
#[derive(Clone, Copy)]
pub struct Word<'a> {
    pub bytes: &'a [u8],
    pub column: usize,
}

// A walk over the words of a line.
#[derive(Drop)]
pub struct Words<'a> {
    // What is left of the line, from the next word on; nothing after the last.
    left: Option<&'a [u8]>,
    // Where that begins in the line, from 1.
    column: usize,
    ghost fits: { column + rest_len left < 2 ^ 64 },
}

// Whether a line is passed over.
pub fn is_blank(line: &[u8]) -> bool
    ensures { result ≡ blank line.now }
{
    matches!(line, [] | [b'#', ..])
}

// Whether a word is that name: `==`, as a public promise of this crate.
pub fn is_word(word: &[u8], name: &[u8]) -> bool
    ensures { result ≡ bytes_eq word.now name.now }
{
    word == name
}

impl<'a> Words<'a> {
    ghost use Rattle.scenario.specs.Walk.{seen, yet, head, tail};

    pub fn new(line: &'a [u8]) -> Words<'a>
        ensures { yet result ≡ placed 1 (words line.now) }
    {
        Words {
            left: Some(line),
            column: 1,
        }
    }

    // `next` with clauses of its own, which state the word and the rest without the trait.
    pub fn next_word(&mut self) -> Option<Word<'a>>
        ensures value { option_map seen result ≡ head (yet self.old) }
        ensures after { yet self.new ≡ tail (yet self.old) }
    {
        self.next()
    }
}

// An empty word comes where two spaces meet or one stands at an end.
impl<'a> Iterator for Words<'a> {
    ghost use Rattle.scenario.specs.Walk.{seen, yet};

    type Item = Word<'a>;

    ghost next_gives = { YieldsFirstBy seen yet };

    ghost remaining = { item_count yet };

    fn next(&mut self) -> Option<Word<'a>> {
        let (bytes, left) = split_word(self.left?);
        let column = self.column;
        self.column += bytes.len() + 1;
        self.left = left;
        Some(Word { bytes, column })
    }
}

// The first word of a line, and what stands behind the space after it.
fn split_word(line: &[u8]) -> (&[u8], Option<&[u8]>)
    ensures words { words line.now ≡ result.0.now ∷ rest_words result.1 }
    ensures lengths { length result.0.now + rest_len result.1 ≡ length line.now }
{
    match line.iter().position(|b| *b == b' ') {
        Some(end) => (&line[..end], Some(&line[end + 1..])),
        None => (line, None),
    }
}
