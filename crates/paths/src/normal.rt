// The path that a text names below a working directory.
ghost use Rattle.std.specs.Prelude.{◌≡◌, ◌+◌, ◌<◌, ◌≤◌, true, [], length};
ghost use Rattle.paths.specs.Names.{plain, render};
ghost use Rattle.paths.specs.Texts.{zeroless, walk, walked, parts, normalised, limited, read};
ghost use Rattle.paths.specs.Laws.{NormalForm};
ghost use Rattle.paths.specs.Model.{numbered, replied, placed};

use crate::cursor::Cursor;
use crate::path::Path;
use crate::refusal::Refusal;
use crate::spelled::Spelled;

// A path on its way to the normal form, which may pass the limits of a path for a while.
type Wide = Spelled<136>;

// One part of a text.
fn step(wide: &mut Wide, part: &[u8])
    requires plain { plain part.now ≡ true }
    requires room { length (render wide.old) + length part.now < 136 }
    ensures after { wide.new ≡ walk wide.old part.now }
    ensures len { length (render wide.new) ≤ length (render wide.old) + 1 + length part.now }
{
    match part {
        [] | [b'.'] => {}
        [b'.', b'.'] => wide.pop(),
        _ => wide.push(part),
    }
}

fn walk(mut wide: Wide, text: &[u8]) -> Wide
    requires short { length text.now ≤ 64 }
    requires zeroless { zeroless text.now ≡ true }
    requires room { length (render wide) ≤ 64 }
    ensures { result ≡ walked wide (parts [] text.now) }
{
    for part in Cursor::over(text) {
        step(&mut wide, part.name);
    }
    wide
}

// The normal form, which may lie beyond the limits of a path.
fn normal(cwd: &Path, text: &[u8]) -> Wide
    requires short { length text.now ≤ 64 }
    requires zeroless { zeroless text.now ≡ true }
    ensures { result ≡ normalised cwd.now text.now }
{
    match text.strip_prefix(b"/") {
        Some(rest) => walk(Wide::root(), rest),
        None => walk(cwd.spelled.resized(), text),
    }
}

// Puts the path into the place that the caller lends, if it keeps the limits.
fn narrow(wide: &Wide, path: &mut Path) -> Result<(), Refusal>
    ensures value { numbered result ≡ replied (limited wide.now) }
    ensures after { path.new ≡ placed (limited wide.now) path.old }
{
    if wide.depth() > 8 || wide.bytes().len() > 64 {
        return Err(Refusal::TooDeep);
    }
    *path = Path {
        spelled: wide.resized(),
    };
    Ok(())
}

// Puts the path that the text names into the place that the caller lends, since no result holds a path.
pub fn absolute(cwd: &Path, text: &[u8], path: &mut Path) -> Result<(), Refusal>
    ensures value { numbered result ≡ replied (read cwd.now text.now) }
    ensures after { path.new ≡ placed (read cwd.now text.now) path.old }
    ensures laws { NormalForm }
{
    if text.len() > 64 {
        return Err(Refusal::TextLong);
    }
    if text.contains(&0) {
        return Err(Refusal::ZeroByte);
    }
    narrow(&normal(cwd, text), path)
}
