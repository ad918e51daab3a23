// The commands that set the scanner up.
use crate::args::{Args, read_name};
use crate::causes::read_scan_cause;
use crate::commands::ScannerCommand;
use crate::ends::AnyScanner;
use crate::world::World;
use crate::wrong::Wrong;
use catalogue::{Catalogue, Node};
use paths::Path;
use sheet::{Class, Sheet};

impl World {
    pub fn scanner_command(
        &mut self,
        command: ScannerCommand,
        args: &mut Args<'_>,
    ) -> Result<(), Wrong> {
        match command {
            ScannerCommand::Catalogue => self.catalogue(args),
            ScannerCommand::Sheet => self.sheet(args),
            ScannerCommand::Dir => self.node(args, Node::directory()),
            ScannerCommand::File => self.node(args, Node::file()),
            ScannerCommand::Link => self.link(args),
            ScannerCommand::Class => self.class(args),
            ScannerCommand::List => self.list(args),
            ScannerCommand::Unlist => self.unlist(args),
            ScannerCommand::Strike => self.strike(args),
        }
    }

    // Two constructors in two lines: one for both would take the constructor and be no plainer.
    fn catalogue(&mut self, args: &mut Args<'_>) -> Result<(), Wrong> {
        args.end()?;
        self.scanner = AnyScanner::Catalogue(Catalogue::new(self.heap)?);
        Ok(())
    }

    fn sheet(&mut self, args: &mut Args<'_>) -> Result<(), Wrong> {
        args.end()?;
        self.scanner = AnyScanner::Sheet(Sheet::new(self.heap)?);
        Ok(())
    }

    fn node(&mut self, args: &mut Args<'_>, node: Node) -> Result<(), Wrong> {
        let mut path = Path::root();
        args.path(&mut path)?;
        args.end()?;
        self.put(&path, node)
    }

    fn link(&mut self, args: &mut Args<'_>) -> Result<(), Wrong> {
        let mut path = Path::root();
        args.path(&mut path)?;
        let mut target = Path::root();
        args.target(&mut target)?;
        args.end()?;
        self.put(&path, Node::link(&target))
    }

    fn put(&mut self, path: &Path, node: Node) -> Result<(), Wrong> {
        let catalogue = self.scanner.catalogue()?;
        catalogue.put(path, node).map_err(|_| Wrong::FullCatalogue)
    }

    fn class(&mut self, args: &mut Args<'_>) -> Result<(), Wrong> {
        let mut path = Path::root();
        args.path(&mut path)?;
        let follow = args.follow()?;
        let class = read_class(args)?;
        args.end()?;
        Ok(self.scanner.sheet()?.classify_as(&path, follow, class)?)
    }

    fn list(&mut self, args: &mut Args<'_>) -> Result<(), Wrong> {
        let mut path = Path::root();
        args.path(&mut path)?;
        let sheet = self.scanner.sheet()?;
        sheet.list(&path).map_err(|_| Wrong::FullSheet)?;
        // A word may be wrong: an iterator would give results, and this be no plainer.
        while let Some(word) = args.next()? {
            self.add(&path, word)?;
        }
        Ok(())
    }

    // One item of a listing: `=NAME` or `!CAUSE`.
    fn add(&mut self, path: &Path, word: &[u8]) -> Result<(), Wrong> {
        let item = match word {
            [b'=', name @ ..] => Ok(read_name(self.heap, name)?),
            [b'!', cause @ ..] => Err(read_scan_cause(cause)?),
            _ => return Err(Wrong::NoItem),
        };
        let sheet = self.scanner.sheet()?;
        sheet.add(path, item).map_err(|_| Wrong::FullSheet)
    }

    fn unlist(&mut self, args: &mut Args<'_>) -> Result<(), Wrong> {
        let mut path = Path::root();
        args.path(&mut path)?;
        let cause = read_scan_cause(args.word()?)?;
        args.end()?;
        let sheet = self.scanner.sheet()?;
        sheet.unlist(&path, cause).map_err(|_| Wrong::FullSheet)
    }

    fn strike(&mut self, args: &mut Args<'_>) -> Result<(), Wrong> {
        let mut path = Path::root();
        args.path(&mut path)?;
        args.end()?;
        self.scanner.strike(&path);
        Ok(())
    }
}

fn read_class(args: &mut Args<'_>) -> Result<Class, Wrong> {
    match args.word()? {
        b"directory" => {
            let mut canonical = Path::root();
            args.path(&mut canonical)?;
            Ok(Class::directory(&canonical))
        }
        b"symlink" => Ok(Class::link()),
        b"other" => Ok(Class::other()),
        word => Ok(Class::failed(read_scan_cause(word)?)),
    }
}
