//! The store that the program builds over.
ghost use Rattle.std.specs.Prelude.{◌≡◌, ◌+◌, ◌<◌, false, None, IfOk, string_bytes};
ghost use Rattle.gm_tierdb.specs.StoreTexts.{failures_of};
ghost use Rattle.gamesman.specs.Shelves.{failed_in, kept_in, kept_at, IsShelfWrite};

use gm_command::requests::TableLocation;
use gm_game::limits::NAME;
use gm_tierdb::folder_store::FolderStore;
use gm_tierdb::read_only::ReadOnly;
use gm_tierdb::store::Store;
use gm_tierdb::store_error::StoreError;
use std::alloc::{AllocError, Global};
use std::fs::Files;

/// The place of the tier files: a folder, a folder that is only read, or none, if the tables are all that is wanted. One type
/// covers all three, since a build is compiled once for each type of store. As a store it promises only its count of failures,
/// like a folder.
#[derive(Drop)]
pub enum Shelf {
    Folder(FolderStore),
    ReadOnly(ReadOnly<FolderStore>),
    Nowhere,
}

// Makes the store of a folder.
fn folder_at(alloc: Global, folder: &str) -> Result<FolderStore, AllocError>
    ensures failed { IfOk result (λ s. s.broken ≡ 0) }
    ensures folder { IfOk result (λ s. string_bytes s.folder ≡ folder.now) }
{
    Ok(FolderStore::new(alloc, String::from_str(alloc, folder)?))
}

impl Shelf {
    /// Makes the store at this place. No call of it has failed.
    pub fn at(alloc: Global, tables: TableLocation<'_>) -> Result<Shelf, AllocError>
        ensures failed { IfOk result (λ s. failed_in s ≡ 0) }
        ensures kept { IfOk result (λ s. kept_in s ≡ kept_at tables.entry) }
    {
        match tables {
            TableLocation::Memory => Ok(Shelf::Nowhere),
            TableLocation::Folder(folder) => Ok(Shelf::Folder(folder_at(alloc, folder)?)),
            TableLocation::ReadOnly(folder) => {
                Ok(Shelf::ReadOnly(ReadOnly::new(folder_at(alloc, folder)?)))
            }
        }
    }

    /// Tests whether a tier can't be written because its file is an intact one of a game with a name other than this one. No
    /// failure is counted.
    pub fn is_anothers<R: Files>(
        &mut self,
        rt: &R,
        tier: u64,
        name: &[u8; NAME],
    ) -> Result<bool, AllocError>
        ensures { failed_in self.new ≡ failed_in self.old }
    {
        match self {
            Shelf::Folder(store) => store.is_anothers(rt, tier, name),
            Shelf::ReadOnly(_) | Shelf::Nowhere => Ok(false),
        }
    }

    /// Tests whether a write has failed because the file there is another game's.
    pub fn met_another(&self) -> bool {
        match self {
            Shelf::Folder(store) => store.met_another(),
            Shelf::ReadOnly(_) | Shelf::Nowhere => false,
        }
    }
}

impl Store for Shelf {
    ghost KEEPS = { false };

    ghost READS = { false };

    ghost kept_is_read = { λ kept. kept };

    ghost texts = { λ _ _. None };

    ghost failed = { failed_in };

    const KEEPS: bool = false;

    fn takes_texts(&self) -> bool {
        match self {
            Shelf::Folder(_) | Shelf::ReadOnly(_) => true,
            Shelf::Nowhere => false,
        }
    }

    fn read<R: Files>(
        &mut self,
        rt: &R,
        alloc: Global,
        tier: u64,
    ) -> Result<Option<Vec<u8>>, StoreError> {
        match self {
            Shelf::Folder(store) => store.read(rt, alloc, tier),
            Shelf::ReadOnly(store) => store.read(rt, alloc, tier),
            Shelf::Nowhere => Ok(None),
        }
    }

    fn write<R: Files>(&mut self, rt: &R, tier: u64, bytes: &[u8]) -> Result<(), StoreError>
        requires { failed_in self.old < u64.MAX }
        ensures write { IsShelfWrite self.old self.new result }
        ensures count { failed_in self.new ≡ failed_in self.old + failures_of result }
    {
        match self {
            Shelf::Folder(store) => store.write(rt, tier, bytes),
            Shelf::ReadOnly(store) => store.write(rt, tier, bytes),
            Shelf::Nowhere => Ok(()),
        }
    }

    fn failures(&self) -> u64 {
        match self {
            Shelf::Folder(store) => store.failures(),
            Shelf::ReadOnly(store) => store.failures(),
            Shelf::Nowhere => 0,
        }
    }
}
