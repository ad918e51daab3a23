// The direct questions: what the outside answers, with no recursor between.
use crate::args::Args;
use crate::causes::{write_entry, write_request, write_verdict};
use crate::commands::Question;
use crate::ends::AnyBackend;
use crate::world::World;
use crate::wrong::Wrong;
use outside::{Backend, BackendCause, Carried, Filterer, Scanner};
use paths::{Name, Path, absolute};
use scenario::encode;
use std::alloc::AllocError;
use std::fmt::Write;

// More items than any scanner of ours lists.
const MOST_ITEMS: usize = 4096;

impl World {
    // A struct of the two loans, words and output, would be made for each question and be no plainer.
    pub fn answer(
        &mut self,
        question: Question,
        args: &mut Args<'_>,
        out: &mut String,
    ) -> Result<(), Wrong> {
        match question {
            Question::Look => self.look(args, out),
            Question::Items => self.items(args, out),
            Question::Watch => self.request(args, out, "watch", AnyBackend::watch),
            Question::Unwatch => self.request(args, out, "unwatch", AnyBackend::unwatch),
            Question::Fill => self.fill(args, out),
            Question::Verdict => self.verdict(args, out),
        }
    }

    fn look(&self, args: &mut Args<'_>, out: &mut String) -> Result<(), Wrong> {
        let text = args.text()?;
        let follow = args.follow()?;
        args.end()?;
        let mut path = Path::root();
        if read_or_refuse(&text, &mut path, out)? {
            let mut canonical = Path::root();
            let entry = self.scanner.classify(&path, follow, &mut canonical);
            write_entry(out, entry, &canonical)?;
        }
        Ok(())
    }

    fn items(&self, args: &mut Args<'_>, out: &mut String) -> Result<(), Wrong> {
        let text = args.text()?;
        args.end()?;
        let mut path = Path::root();
        if read_or_refuse(&text, &mut path, out)? {
            self.write_items(&path, out)?;
        }
        Ok(())
    }

    // The items of a listing, one by one, and their number; or why there is no listing.
    fn write_items(&self, path: &Path, out: &mut String) -> Result<(), AllocError> {
        // By number, since a scanner is asked for its items so.
        for number in 0..MOST_ITEMS {
            match self.scanner.item(path, number) {
                Ok(Some(Ok(name))) => write_name(out, &name)?,
                Ok(Some(Err(cause))) => writeln!(out, "cause {cause}")?,
                Ok(None) => return writeln!(out, "items {number}"),
                Err(cause) => return writeln!(out, "{cause}"),
            }
        }
        Ok(())
    }

    fn request<F>(
        &mut self,
        args: &mut Args<'_>,
        out: &mut String,
        verb: &str,
        ask: F,
    ) -> Result<(), Wrong>
    where
        F: FnOnce(&mut AnyBackend, &Path, &mut Carried) -> Result<(), BackendCause>,
        requires { F.IsAlwaysCallable ask }
    {
        let text = args.text()?;
        args.end()?;
        let mut path = Path::root();
        if read_or_refuse(&text, &mut path, out)? {
            let backend = self.backend.as_mut().ok_or(Wrong::NoBackend)?;
            let mut carried = Carried::nothing();
            let answer = ask(backend, &path, &mut carried);
            write_request(out, verb, &path, answer, &carried)?;
        }
        Ok(())
    }

    fn fill(&self, args: &mut Args<'_>, out: &mut String) -> Result<(), Wrong> {
        args.end()?;
        let backend = self.backend.as_ref().ok_or(Wrong::NoBackend)?;
        let fill = backend.fill()?;
        Ok(writeln!(out, "fill {fill}")?)
    }

    fn verdict(&self, args: &mut Args<'_>, out: &mut String) -> Result<(), Wrong> {
        let text = args.text()?;
        args.end()?;
        let mut path = Path::root();
        if read_or_refuse(&text, &mut path, out)? {
            let verdict = match &self.rules {
                Some(rules) => rules.verdict(&path),
                None => ().check_dir(&path),
            };
            write_verdict(out, verdict)?;
        }
        Ok(())
    }
}

// Puts the path that a text names below "/" into the place, or prints the refusal and answers no.
// Into a place that the caller lends, since no result holds a path.
fn read_or_refuse(text: &[u8], place: &mut Path, out: &mut String) -> Result<bool, AllocError> {
    let Err(refusal) = absolute(&Path::root(), text, place) else {
        return Ok(true);
    };
    writeln!(out, "refused {}", refusal.number())?;
    Ok(false)
}

// A function, not a Display: a path is spelt by encode, whose promise is of a String.
fn write_name(out: &mut String, name: &Name) -> Result<(), AllocError> {
    out.push_str("item ")?;
    encode(out, name.bytes())?;
    out.push('\n')
}
