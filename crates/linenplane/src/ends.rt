// The backend and the scanner of a scenario, each one of those that we ship.
ghost use Rattle.simulated.specs.contracts.board.watching.BoardBackend.TheImpl.Laws.{means-law as board_means};
ghost use Rattle.simulated.specs.contracts.roll.watching.RollBackend.TheImpl.Laws.{means-law as roll_means};
ghost use Rattle.catalogue.specs.contracts.scanning.CatalogueScanner.TheImpl.Laws.{followed-law as catalogue_followed};
ghost use Rattle.sheet.specs.contracts.scanning.SheetScanner.TheImpl.Laws.{followed-law as sheet_followed};
ghost use Rattle.linenplane.specs.Ends.{book_by, did_by, means_by, classified_by, listed_by, followed_by};

use crate::wrong::Wrong;
use catalogue::Catalogue;
use outside::{Backend, BackendCause, Carried, EntryKind, ScanCause, Scanner};
use paths::{Name, Path};
use sheet::Sheet;
use simulated::{Board, Roll};

// Enums, not dyn: the commands also ask each kind for what only it has.
#[derive(Drop)]
pub enum AnyBackend {
    Board(Board),
    Roll(Roll),
}

// Enums, not dyn: the commands also ask each kind for what only it has.
#[derive(Drop)]
pub enum AnyScanner {
    Catalogue(Catalogue),
    Sheet(Sheet),
}

impl Backend for AnyBackend {
    ghost book = { book_by ⟦<Board as Backend>⟧.book ⟦<Roll as Backend>⟧.book };

    ghost did = { did_by ⟦<Board as Backend>⟧.did ⟦<Roll as Backend>⟧.did };

    ghost means = { means_by ⟦<Board as Backend>⟧.book ⟦<Roll as Backend>⟧.book ⟦<Board as Backend>⟧.did ⟦<Roll as Backend>⟧.did board_means roll_means };

    fn watch(&mut self, path: &Path, carried: &mut Carried) -> Result<(), BackendCause> {
        match self {
            AnyBackend::Board(board) => board.watch(path, carried),
            AnyBackend::Roll(roll) => roll.watch(path, carried),
        }
    }

    fn unwatch(&mut self, path: &Path, carried: &mut Carried) -> Result<(), BackendCause> {
        match self {
            AnyBackend::Board(board) => board.unwatch(path, carried),
            AnyBackend::Roll(roll) => roll.unwatch(path, carried),
        }
    }
}

impl Scanner for AnyScanner {
    ghost classified = { classified_by ⟦<Catalogue as Scanner>⟧.classified ⟦<Sheet as Scanner>⟧.classified };

    ghost listed = { listed_by ⟦<Catalogue as Scanner>⟧.listed ⟦<Sheet as Scanner>⟧.listed };

    ghost followed = { followed_by ⟦<Catalogue as Scanner>⟧.classified ⟦<Sheet as Scanner>⟧.classified catalogue_followed sheet_followed };

    fn classify(
        &self,
        path: &Path,
        follow: bool,
        canonical: &mut Path,
    ) -> Result<EntryKind, ScanCause> {
        match self {
            AnyScanner::Catalogue(catalogue) => catalogue.classify(path, follow, canonical),
            AnyScanner::Sheet(sheet) => sheet.classify(path, follow, canonical),
        }
    }

    fn item(
        &self,
        path: &Path,
        number: usize,
    ) -> Result<Option<Result<Name, ScanCause>>, ScanCause> {
        match self {
            AnyScanner::Catalogue(catalogue) => catalogue.item(path, number),
            AnyScanner::Sheet(sheet) => sheet.item(path, number),
        }
    }
}

impl AnyBackend {
    pub fn fill(&self) -> Result<usize, Wrong> {
        match self {
            AnyBackend::Board(board) => Ok(board.fill()),
            AnyBackend::Roll(_) => Err(Wrong::NoBoard),
        }
    }
}

impl AnyScanner {
    pub fn catalogue(&mut self) -> Result<&mut Catalogue, Wrong> {
        match self {
            AnyScanner::Catalogue(catalogue) => Ok(catalogue),
            AnyScanner::Sheet(_) => Err(Wrong::NoCatalogue),
        }
    }

    pub fn sheet(&mut self) -> Result<&mut Sheet, Wrong> {
        match self {
            AnyScanner::Catalogue(_) => Err(Wrong::NoSheet),
            AnyScanner::Sheet(sheet) => Ok(sheet),
        }
    }

    pub fn strike(&mut self, path: &Path) {
        match self {
            AnyScanner::Catalogue(catalogue) => catalogue.strike(path),
            AnyScanner::Sheet(sheet) => sheet.strike(path),
        }
    }
}
