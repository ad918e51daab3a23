// A walk over the parts of a text between its slashes.
ghost use Rattle.std.specs.Prelude.{◌≡◌, ℕ};
ghost use Rattle.std.specs.Option.{option_map};
ghost use Rattle.paths.specs.Texts.{parts_from, first_part, behind_part, other_parts, placed_parts};
ghost use Rattle.std.specs.Iterator.{YieldsFirstBy, item_count};

// Text and position, so that a part's place is one in the whole text.
#[derive(Drop)]
pub struct Cursor<'a> {
    text: &'a [u8],
    at: usize,
}

// A part of the caller's text, and the place where it begins.
#[derive(Clone, Copy)]
pub struct Part<'a> {
    pub name: &'a [u8],
    pub place: usize,
}

impl<'a> Cursor<'a> {
    pub fn over(text: &'a [u8]) -> Cursor<'a>
        ensures text { result.text.now ≡ text.now }
        ensures at { result.at ≡ 0 }
    {
        Cursor { text, at: 0 }
    }

    // The next part, until all are given. Its clauses say where the cursor then stands; `next_gives` does not.
    pub fn next_part(&mut self) -> Option<Part<'a>>
        ensures same { self.new.text.now ≡ self.old.text.now }
        ensures value { option_map (λ x. (x.name.now, x.place)) result ≡ first_part (parts_from self.old.text.now self.old.at) self.old.at }
        ensures after { self.new.at ≡ behind_part (parts_from self.old.text.now self.old.at) self.old.at }
        ensures rest { parts_from self.old.text.now self.new.at ≡ other_parts (parts_from self.old.text.now self.old.at) }
    {
        let place = self.at;
        let rest = self.text.get(place..)?;
        let len = rest.iter().position(|b| *b == b'/').unwrap_or(rest.len());
        self.at = place + len + 1;
        Some(Part {
            name: &rest[..len],
            place,
        })
    }
}

// The parts in turn.
impl<'a> Iterator for Cursor<'a> {
    type Item = Part<'a>;

    ghost next_gives = { YieldsFirstBy (λ x. (x.name.now, x.place)) (λ c. placed_parts (parts_from c.text.now c.at) c.at) };

    ghost remaining = { item_count (λ c. placed_parts (parts_from c.text.now c.at) c.at) };

    fn next(&mut self) -> Option<Part<'a>> {
        self.next_part()
    }
}
