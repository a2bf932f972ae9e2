//! Records of a tier by index, in a list or packed.
ghost use Rattle.std.specs.Prelude.{◌≡◌, List, Option, length};
ghost use Rattle.gm_game.specs.declared.position.Solved.{Solved as SolvedSpec};
ghost use Rattle.gm_table.specs.Tables.{record_at};

use crate::packed::Packed;
use gm_game::position::Solved;

/// Records of a tier by index.
pub(crate) trait Records {
    /// The records.
    ghost listed: { Self → List (Option SolvedSpec) };

    /// Returns how many there are.
    fn count(&self) -> usize
        ensures { result ≡ length (listed self.now) };

    /// Returns the record at an index; `None` past the end.
    fn record(&self, index: usize) -> Option<Solved>
        ensures { result ≡ record_at (listed self.now) index };
}

impl Records for Packed {
    ghost listed = { λ p. p };

    fn count(&self) -> usize {
        self.len()
    }

    fn record(&self, index: usize) -> Option<Solved> {
        self.get(index)
    }
}

/// Records in a list.
#[derive(Clone, Copy)]
pub(crate) struct Listed<'a> {
    pub(crate) records: &'a [Option<Solved>],
}

impl<'a> Records for Listed<'a> {
    ghost listed = { λ s. s.records.now };

    fn count(&self) -> usize {
        self.records.len()
    }

    fn record(&self, index: usize) -> Option<Solved> {
        *self.records.get(index)?
    }
}
