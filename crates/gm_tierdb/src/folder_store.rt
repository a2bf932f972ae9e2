//! A store in a folder of files.
ghost use Rattle.std.specs.Prelude.{◌≡◌, ◌+◌, ◌<◌, ◌⊎◌, true, false, None, Some, Ok, IfOk, IsErrOf, string_bytes, string_len};
ghost use Rattle.gm_tierdb.specs.inner.Owners.{path_text};
ghost use Rattle.std.specs.Option.{option_or};
ghost use Rattle.gm_tierdb.specs.StoreTexts.{failures_of};

use crate::layout::{MAGIC_LEN, NAME_END};
use crate::owner::{is_anothers, may_be_anothers};
use crate::store::Store;
use crate::store_error::StoreError;
use crate::streams::{READ_LEN, read_into, write_text};
use gm_game::limits::NAME;
use std::alloc::{AllocError, Global};
use std::fs::{self, File, Files, OpenFile};
use std::io::{ErrorKind, Read};

/// A store in a folder: docs/FORMATS.md, "Files in a folder". Tier t is the file `tier-<t>.gmt`, which is written as `tier-<t>.tmp`, synced and renamed, and
/// then the folder is synced. A tier without a file has no text. The folder is not made, and an empty path is no folder. Only the count of failures is
/// promised, and not what the folder holds between two calls.
///
/// An intact file of another game is never overwritten: the write fails. What is no ordinary file is not opened.
#[derive(Drop)]
pub struct FolderStore {
    alloc: Global,
    folder: String,
    broken: u64,
    met_another: bool,
    // The first tier whose file could not be looked at ahead of its turn.
    unseen: Option<u64>,
}

impl FolderStore {
    /// Returns a store in the folder with this path. The names of files are made in memory of this allocator.
    pub fn new(alloc: Global, folder: String) -> Self
        ensures folder { result.folder ≡ folder }
        ensures failed { ⟦<FolderStore as Store>⟧.failed result ≡ 0 }
        ensures met_another { result.met_another ≡ false }
        ensures unseen { result.unseen ≡ None }
    {
        FolderStore {
            alloc,
            folder,
            broken: 0,
            met_another: false,
            unseen: None,
        }
    }

    /// Returns whether a write has failed because the file there is another game's.
    pub fn met_another(&self) -> bool
        ensures { result ≡ self.now.met_another }
    {
        self.met_another
    }

    /// Returns whether the file of a tier is an intact one of another game than the one of this name, for a caller that looks ahead. Nothing is written, and no
    /// failure is counted: if the file can't be read, the result is false, and a later `read` of that tier fails. The whole file is read only if its first
    /// bytes name another game.
    pub fn is_anothers<R: Files>(
        &mut self,
        rt: &R,
        tier: u64,
        name: &[u8; NAME],
    ) -> Result<bool, AllocError>
        ensures broken { self.new.broken ≡ self.old.broken }
        ensures folder { self.new.folder ≡ self.old.folder }
        ensures met_another { self.new.met_another ≡ self.old.met_another }
        ensures unseen { (self.new.unseen ≡ self.old.unseen) ⊎ ((result ≡ Ok false) × (self.new.unseen ≡ option_or self.old.unseen (Some tier))) }
        ensures empty { string_len self.old.folder ≡ 0 → (result ≡ Ok false) × (self.new.unseen ≡ option_or self.old.unseen (Some tier)) }
    {
        match self.has_anothers(rt, tier, name) {
            Ok(another) => Ok(another),
            Err(StoreError::OutOfMemory) => Err(AllocError),
            Err(StoreError::Failed) => {
                self.unseen = self.unseen.or(Some(tier));
                Ok(false)
            }
        }
    }

    // Does the same, but counts a file that can't be read as a failure.
    fn has_anothers<R: Files>(
        &self,
        rt: &R,
        tier: u64,
        name: &[u8; NAME],
    ) -> Result<bool, StoreError>
        ensures { string_len self.now.folder ≡ 0 → IsErrOf result StoreError.Failed }
    {
        if self.folder.is_empty() {
            return Err(StoreError::Failed);
        }
        let path = self.path(tier, "gmt")?;
        let mut bytes = [0; NAME_END];
        bytes[MAGIC_LEN..].copy_from_slice(name);
        holds_another(rt, self.alloc, path.as_str(), &bytes)
    }

    // Returns the path of a tier's file with this ending.
    fn path(&self, tier: u64, ending: &str) -> Result<String, StoreError>
        ensures text { IfOk result (λ s. string_bytes s ≡ path_text (string_bytes self.now.folder) tier ending.now) }
        ensures count { failures_of result ≡ 0 }
    {
        match format!(in self.alloc; "{}/tier-{tier}.{ending}", self.folder) {
            Ok(path) => Ok(path),
            Err(_) => Err(StoreError::OutOfMemory),
        }
    }

    // Returns the text of a tier, or none if there is no file.
    fn get<R: Files>(&self, rt: &R, alloc: Global, tier: u64) -> Result<Option<Vec<u8>>, StoreError>
        ensures empty { string_len self.now.folder ≡ 0 → IsErrOf result StoreError.Failed }
        ensures unseen { self.now.unseen ≡ Some tier → IsErrOf result StoreError.Failed }
    {
        if self.folder.is_empty() || self.unseen == Some(tier) {
            return Err(StoreError::Failed);
        }
        let path = self.path(tier, "gmt")?;
        read_file(rt, alloc, path.as_str())
    }

    // Writes the text of a tier in the place of its file, unless that is an intact one of another game.
    fn put<R: Files>(&mut self, rt: &R, tier: u64, bytes: &[u8]) -> Result<(), StoreError>
        ensures broken { self.new.broken ≡ self.old.broken }
        ensures folder { self.new.folder ≡ self.old.folder }
        ensures unseen { self.new.unseen ≡ self.old.unseen }
        ensures met_another { (self.new.met_another ≡ self.old.met_another) ⊎ (IsErrOf result StoreError.Failed × (self.new.met_another ≡ true)) }
        ensures empty { string_len self.old.folder ≡ 0 → IsErrOf result StoreError.Failed × (self.new.met_another ≡ self.old.met_another) }
    {
        if self.folder.is_empty() {
            return Err(StoreError::Failed);
        }
        let path = self.path(tier, "gmt")?;
        let beside = self.path(tier, "tmp")?;
        if holds_another(rt, self.alloc, path.as_str(), bytes)? {
            self.met_another = true;
            return Err(StoreError::Failed);
        }
        write_file(rt, path.as_str(), beside.as_str(), bytes)?;
        sync_folder(rt, self.folder.as_str())
    }

    // Counts an answer that is a failure.
    fn counted<T>(&mut self, answer: Result<T, StoreError>) -> Result<T, StoreError>
        requires { self.old.broken < u64.MAX }
        ensures same { result ≡ answer }
        ensures count { self.new.broken ≡ self.old.broken + failures_of answer }
        ensures folder { self.new.folder ≡ self.old.folder }
        ensures unseen { self.new.unseen ≡ self.old.unseen }
        ensures met_another { self.new.met_another ≡ self.old.met_another }
    {
        if matches!(answer, Err(StoreError::Failed)) {
            self.broken += 1;
        }
        answer
    }
}

impl Store for FolderStore {
    ghost KEEPS = { false };

    ghost READS = { false };

    ghost kept_is_read = { λ kept. kept };

    ghost texts = { λ _ _. None };

    ghost failed = { λ s. s.broken };

    const KEEPS: bool = false;

    fn takes_texts(&self) -> bool {
        true
    }

    fn read<R: Files>(
        &mut self,
        rt: &R,
        alloc: Global,
        tier: u64,
    ) -> Result<Option<Vec<u8>>, StoreError>
        requires { self.old.broken < u64.MAX }
        ensures count { self.new.broken ≡ self.old.broken + failures_of result }

        // An empty path is no folder, and a file that could not be looked at ahead of its turn stays unread.
        ensures empty { string_len self.old.folder ≡ 0 → IsErrOf result StoreError.Failed }
        ensures ahead { self.old.unseen ≡ Some tier → IsErrOf result StoreError.Failed }
        ensures folder { self.new.folder ≡ self.old.folder }
        ensures unseen { self.new.unseen ≡ self.old.unseen }
        ensures met_another { self.new.met_another ≡ self.old.met_another }
    {
        let answer = self.get(rt, alloc, tier);
        self.counted(answer)
    }

    fn write<R: Files>(&mut self, rt: &R, tier: u64, bytes: &[u8]) -> Result<(), StoreError>
        requires { self.old.broken < u64.MAX }
        ensures count { self.new.broken ≡ self.old.broken + failures_of result }

        // Another game's file is met only by a write that fails, and never forgotten.
        ensures empty { string_len self.old.folder ≡ 0 → IsErrOf result StoreError.Failed × (self.new.met_another ≡ self.old.met_another) }
        ensures met_another { (self.new.met_another ≡ self.old.met_another) ⊎ (IsErrOf result StoreError.Failed × (self.new.met_another ≡ true)) }
        ensures folder { self.new.folder ≡ self.old.folder }
        ensures unseen { self.new.unseen ≡ self.old.unseen }
    {
        let answer = self.put(rt, tier, bytes);
        self.counted(answer)
    }

    fn failures(&self) -> u64 {
        self.broken
    }
}

// Returns the number of bytes of an ordinary file, or none if there is nothing; anything else is a failure.
fn len_of<R: Files>(rt: &R, path: &str) -> Result<Option<u64>, StoreError> {
    match fs::metadata(rt, path) {
        Ok(metadata) if metadata.is_file() => Ok(Some(metadata.len())),
        Err(error) if error.kind() == ErrorKind::NotFound => Ok(None),
        _ => Err(StoreError::Failed),
    }
}

// Returns the text of a file, or none if there is no file.
fn read_file<R: Files>(rt: &R, alloc: Global, path: &str) -> Result<Option<Vec<u8>>, StoreError> {
    let Some(len) = len_of(rt, path)? else {
        return Ok(None);
    };
    let mut file = fs::open(rt, path).map_err(|_| StoreError::Failed)?;
    let room = (len as usize).min(READ_LEN);
    let Ok(text) = Vec::with_capacity(alloc, room) else {
        return Err(StoreError::OutOfMemory);
    };
    let text = read_into(text, &mut file)?;
    Ok(Some(text))
}

// Returns the first bytes of a file, up to the name of its game; none if it is shorter, or missing.
fn read_head<R: Files>(rt: &R, path: &str) -> Result<Option<[u8; NAME_END]>, StoreError> {
    if len_of(rt, path)?.is_none() {
        return Ok(None);
    }
    let mut file = fs::open(rt, path).map_err(|_| StoreError::Failed)?;
    let mut head = [0; NAME_END];
    let mut count = 0;
    while count < NAME_END {
        match file.read(&mut head[count..]) {
            Ok(0) => return Ok(None),
            Ok(more) => count += more,
            Err(_) => return Err(StoreError::Failed),
        }
    }
    Ok(Some(head))
}

// Returns whether the file is an intact one of another game than the text's. Mostly its first bytes show this.
fn holds_another<R: Files>(
    rt: &R,
    alloc: Global,
    path: &str,
    bytes: &[u8],
) -> Result<bool, StoreError> {
    match read_head(rt, path)? {
        Some(head) if may_be_anothers(&head, bytes) => is_whole_another(rt, alloc, path, bytes),
        _ => Ok(false),
    }
}

// Returns the same, by all bytes of the file.
fn is_whole_another<R: Files>(
    rt: &R,
    alloc: Global,
    path: &str,
    bytes: &[u8],
) -> Result<bool, StoreError> {
    match read_file(rt, alloc, path)? {
        Some(text) => {
            let another = is_anothers(text.as_slice(), bytes);
            drop(text);
            Ok(another)
        }
        None => Ok(false),
    }
}

// Writes a text to a temporary file, and renames it to the file. After a failure the temporary file is removed if possible.
fn write_file<R: Files>(rt: &R, path: &str, beside: &str, bytes: &[u8]) -> Result<(), StoreError> {
    clear(rt, beside)?;
    let mut file = File::create_new(rt, beside).map_err(|_| StoreError::Failed)?;
    let mut written = write_text(&mut file, bytes);
    if written.is_ok() {
        written = file.sync_all().map_err(|_| StoreError::Failed);
    }
    drop(file);
    if written.is_ok() {
        written = fs::rename(rt, beside, path).map_err(|_| StoreError::Failed);
    }
    if written.is_err() {
        let _ = fs::remove_file(rt, beside);
    }
    written
}

// Syncs a folder, so that the names in it last. On a file system that syncs no folders, nothing is done.
fn sync_folder<R: Files>(rt: &R, folder: &str) -> Result<(), StoreError> {
    let folder = fs::open(rt, folder).map_err(|_| StoreError::Failed)?;
    match folder.sync_all() {
        Err(error) if error.kind() != ErrorKind::InvalidInput => Err(StoreError::Failed),
        _ => Ok(()),
    }
}

// Removes what an earlier run has left, and follows no link there.
fn clear<R: Files>(rt: &R, beside: &str) -> Result<(), StoreError> {
    match fs::symlink_metadata(rt, beside) {
        Err(error) if error.kind() == ErrorKind::NotFound => Ok(()),
        Ok(metadata) if metadata.is_file() || metadata.is_symlink() => {
            fs::remove_file(rt, beside).map_err(|_| StoreError::Failed)
        }
        _ => Err(StoreError::Failed),
    }
}
