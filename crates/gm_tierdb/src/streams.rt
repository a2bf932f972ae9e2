//! Texts from readers and to writers.
ghost use Rattle.std.specs.Prelude.{◌≡◌, ◌⊎◌, ◌≤◌, [], IfOk, IsOk, OnOk, OnErr, IfErr, IsErrOf, length};
ghost use Rattle.std.specs.Io.KnownBytes.{Appends, Consumes, IsAtEnd};
ghost use Rattle.gm_tierdb.specs.inner.Streams.{AppendsPart, ConsumesPart, ConsumesSome};

use crate::layout::FILE_LEN;
use crate::store_error::StoreError;
use std::alloc::Global;
use std::io::{Read, Write};

/// The read limit in bytes: one more than the longest tier file has.
pub const READ_LEN: usize = FILE_LEN + 1;

/// How many bytes are read at a time.
const CHUNK_LEN: usize = 65_536;

/// Returns the bytes of a reader up to its end, but at most 67,108,937 of them (`READ_LEN`). After an error the reader has lost some of its bytes.
pub fn read_text<R: Read>(alloc: Global, reader: &mut R) -> Result<Vec<u8>, StoreError>
    ensures text { IfOk result (λ v. Consumes (R.remaining reader.old) (R.remaining reader.new) v.items) }
    ensures most { IfOk result (λ v. length v.items ≤ READ_LEN) }
    ensures all { IfOk result (λ v. (length v.items ≡ READ_LEN) ⊎ IsAtEnd (R.remaining reader.new)) }
    ensures err { OnErr result (ConsumesPart (R.remaining reader.old) (R.remaining reader.new) READ_LEN) }
    ensures memory { IsErrOf result StoreError.OutOfMemory → ConsumesSome (R.remaining reader.old) (R.remaining reader.new) }
{
    read_into(Vec::new(alloc), reader)
}

/// Reads as `read_text` does, into an empty list. If it has room for all, the text is not moved as it grows.
pub(crate) fn read_into<R: Read>(mut text: Vec<u8>, reader: &mut R) -> Result<Vec<u8>, StoreError>
    requires { text.items ≡ [] }
    ensures text { IfOk result (λ v. Consumes (R.remaining reader.old) (R.remaining reader.new) v.items) }
    ensures most { IfOk result (λ v. length v.items ≤ READ_LEN) }
    ensures all { IfOk result (λ v. (length v.items ≡ READ_LEN) ⊎ IsAtEnd (R.remaining reader.new)) }
    ensures err { OnErr result (ConsumesPart (R.remaining reader.old) (R.remaining reader.new) READ_LEN) }
    ensures memory { IsErrOf result StoreError.OutOfMemory → ConsumesSome (R.remaining reader.old) (R.remaining reader.new) }
{
    let mut chunk = [0u8; CHUNK_LEN];
    while text.len() < READ_LEN {
        let room = CHUNK_LEN.min(READ_LEN - text.len());
        match reader.read(&mut chunk[..room]) {
            Ok(0) => return Ok(text),
            Ok(count) => match text.extend_from_slice(&chunk[..count]) {
                Ok(()) => {}
                Err(_) => return Err(StoreError::OutOfMemory),
            },
            Err(_) => return Err(StoreError::Failed),
        }
    }
    Ok(text)
}

/// Writes all of the bytes. `Failed` is the only error; after it the writer has a prefix of them. A write that takes no byte is a failure.
pub fn write_text<W: Write>(writer: &mut W, bytes: &[u8]) -> Result<(), StoreError>
    ensures text { OnOk result (Appends (W.contents writer.old) (W.contents writer.new) bytes.now) }
    ensures front { OnErr result (AppendsPart (W.contents writer.old) (W.contents writer.new) bytes.now) }
    ensures failed { IfErr result (λ e. e ≡ StoreError.Failed) }
    ensures empty { bytes.now ≡ [] → IsOk result }
{
    let mut done = 0;
    while done < bytes.len() {
        match writer.write(&bytes[done..]) {
            Ok(0) => return Err(StoreError::Failed),
            Ok(count) => done += count,
            Err(_) => return Err(StoreError::Failed),
        }
    }
    Ok(())
}
