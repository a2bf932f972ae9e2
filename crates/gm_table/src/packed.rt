//! Records of one byte or four each.
ghost use Rattle.std.specs.Prelude.{◌≡◌, ℕ, ◌*◌, ◌≤◌, ◌<◌, ◌++◌, [], ◌∷◌, None, map, replicate, take, IfSome, IfOk, length, get_or, OnOk, OnErr};
ghost use Rattle.gm_game.specs.declared.limits.TheConstants.{REMOTENESS};
ghost use Rattle.gm_table.specs.declared.version.Version.TheVariants.{Two};
ghost use Rattle.gm_table.specs.RecordCodes.{record_number};
ghost use Rattle.gm_table.specs.Numbers.{wide};
ghost use Rattle.gm_table.specs.Packed.{unpacked, IsInLimit, AreInLimit};
ghost use Rattle.gm_table.specs.Tables.{record_at};
ghost use Rattle.gm_table.specs.inner.Shorts.{record_of_short};

use crate::number::{number_of, stored, unpacked};
use crate::numbers::Numbers;
use gm_game::position::Solved;
use std::alloc::{AllocError, Global};
use std::marker::Model;

/// Records of a byte each, or of four if one has a remoteness above 31. Contracts see the records.
#[derive(Drop)]
pub struct Packed {
    numbers: Numbers,
}

impl Model for Packed {
    ghost use Rattle.std.specs.Prelude.{List, Option, map};
    ghost use Rattle.gm_game.specs.declared.position.Solved.{Solved};
    ghost use Rattle.gm_table.specs.Packed.{unpacked};

    ghost Value = { List (Option Solved) };

    ghost view = { λ p. map unpacked p.numbers };
}

impl Packed {
    /// Returns an empty list, with room for this many records.
    pub fn with_capacity(alloc: Global, room: usize) -> Result<Packed, AllocError>
        ensures { IfOk result (λ packed. packed ≡ []) }
    {
        let numbers = Numbers::with_capacity(alloc, room)?;
        Ok(Packed { numbers })
    }

    /// Packs records from their short forms, of a byte each: the upper three bits are the code of the value, and the others the remoteness. Copies the bytes.
    #[tactic(auto, using(crate::proofs::PackedLemmas::packed_short))]
    pub fn of_short(alloc: Global, shorts: &[u8]) -> Result<Packed, AllocError>
        ensures { IfOk result (λ packed. packed ≡ map (λ short. unpacked (wide short)) shorts.now) }
    {
        let numbers = Numbers::of_short(alloc, shorts)?;
        Ok(Packed { numbers })
    }

    /// Adds a record within the greatest remoteness at the end. If memory is refused, the records are unchanged.
    #[inline(always)]
    pub fn push(&mut self, known: Option<Solved>) -> Result<(), AllocError>
        requires { IsInLimit known }
        ensures ok { OnOk result (self.new ≡ self.old ++ known ∷ []) }
        ensures err { OnErr result (self.new ≡ self.old) }
    {
        self.push_number(number_of(known))
    }

    /// Adds the record with this number at the end. If memory is refused, the records are unchanged.
    #[inline(always)]
    pub fn push_number(&mut self, number: u32) -> Result<(), AllocError>
        ensures ok { OnOk result (self.new ≡ self.old ++ unpacked number ∷ []) }
        ensures err { OnErr result (self.new ≡ self.old) }
    {
        self.numbers.push(number)
    }

    /// Adds other records at the end. If memory is refused, the records are unchanged.
    pub fn append(&mut self, more: &Packed) -> Result<(), AllocError>
        ensures ok { OnOk result (self.new ≡ self.old ++ more.now) }
        ensures err { OnErr result (self.new ≡ self.old) }
    {
        self.numbers.append(&more.numbers)?;
        Ok(())
    }

    /// Adds no record at the end, this many times. If memory is refused, the records are unchanged.
    #[tactic(auto, using(crate::proofs::PackedLemmas::unpacked_more_zeros))]
    pub fn push_none(&mut self, count: usize) -> Result<(), AllocError>
        ensures ok { OnOk result (self.new ≡ self.old ++ replicate count None) }
        ensures err { OnErr result (self.new ≡ self.old) }
    {
        self.numbers.push_zeros(count)
    }

    /// Keeps the first `count` records.
    pub fn truncate(&mut self, count: usize)
        ensures { self.new ≡ take count self.old }
    {
        self.numbers.truncate(count);
    }

    /// Packs records within the greatest remoteness.
    pub(crate) fn of(alloc: Global, records: &[Option<Solved>]) -> Result<Packed, AllocError>
        requires { AreInLimit records.now }
        ensures { IfOk result (λ packed. packed ≡ records.now) }
    {
        let mut numbers = Numbers::with_capacity(alloc, records.len())?;
        for known in records {
            numbers.push(number_of(*known))?;
        }
        Ok(Packed { numbers })
    }

    /// Returns the records in a list, of 12 bytes each.
    pub fn to_vec(&self, alloc: Global) -> Result<Vec<Option<Solved>>, AllocError>
        ensures { IfOk result (λ v. v.items ≡ self.now) }
    {
        let mut records = Vec::with_capacity(alloc, self.len())?;
        for index in 0..self.len() {
            records.push(self.get(index))?;
        }
        Ok(records)
    }

    /// Returns the allocator of their memory.
    pub(crate) fn allocator(&self) -> Global {
        self.numbers.allocator()
    }

    /// Returns the short forms of the records, if each has one, and else an empty list.
    pub(crate) fn shorts(&self) -> &[u8]
        ensures { (i : ℕ) → i < length result.now → record_at self.now i ≡ record_of_short (get_or result.now i 0) }
    {
        self.numbers.shorts()
    }

    /// Returns how many records there are.
    pub fn len(&self) -> usize
        ensures { result ≡ length self.now }
    {
        self.numbers.len()
    }

    /// Returns the record at an index; `None` past the end.
    pub fn get(&self, index: usize) -> Option<Solved>
        ensures { result ≡ record_at self.now index }
    {
        unpacked(self.numbers.get(index)?)
    }

    /// Returns an index from `from` on that no record comes before, so that these indexes need no look.
    pub(crate) fn skip_holes(&self, from: usize) -> usize
        requires { from ≤ length self.now }
        ensures low { from ≤ result }
        ensures high { result ≤ length self.now }
        ensures holes { (k : ℕ) → from ≤ k → k < result → record_at self.now k ≡ None }
    {
        self.numbers.skip_holes(from)
    }

    /// Returns the number of the record at an index, as a tier file of version 2 has it; 0 past the end.
    pub(crate) fn number(&self, index: usize) -> u32
        ensures { result ≡ record_number Two (record_at self.now index) }
    {
        match self.numbers.get(index) {
            Some(number) => stored(number),
            None => 0,
        }
    }
}
