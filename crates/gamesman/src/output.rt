//! Writing to standard output.
ghost use Rattle.std.specs.Prelude.{◌≡◌, ◌≤◌, ◌++◌, codes, length, Err, IfOk, IfErr, OnErr, OnOk};
ghost use Rattle.std.specs.Io.KnownBytes.{Appends};
ghost use Rattle.gm_play.specs.Sessions.{AppendsPart};
ghost use Rattle.gamesman.specs.Outputs.{IsOutputFault};
ghost use Rattle.gamesman.specs.Told.{IsPut};

use crate::fault::Fault;
use crate::run::DONE;
use arrayvec::ArrayVec;
use gm_game::limits::LINE;
use std::alloc::AllocError;
use std::io::{ErrorKind, Write};

// The bytes of the longest line with its end.
const ROOM: usize = LINE + 1;

/// Writes a text, with one call if the stream takes it whole. After a fault a first part of it is written. One fault is that the
/// reader has closed the stream.
pub fn put<O: Write>(output: &mut O, text: &[u8]) -> Result<(), Fault>
    ensures ok { OnOk result (Appends (O.contents output.old) (O.contents output.new) text.now) }
    ensures err { OnErr result (AppendsPart (O.contents output.old) (O.contents output.new) text.now) }
    ensures fault { IfErr result IsOutputFault }
{
    let mut done = 0;
    for _ in 0..u64::MAX {
        if done == text.len() {
            return Ok(());
        }
        match output.write(&text[done..]) {
            Ok(0) => return Err(Fault::OutputFailed),
            Ok(count) => done += count,
            Err(error) if error.kind() == ErrorKind::Interrupted => {}
            Err(error) => return Err(Fault::from(error)),
        }
    }
    Err(Fault::OutputFailed)
}

/// Writes a text as `put` does, and returns the status of a command that is done.
pub fn put_all<O: Write>(output: &mut O, text: &[u8]) -> Result<u8, Fault>
    ensures { IsPut text.now (O.contents output.old) (O.contents output.new) result }
{
    put(output, text)?;
    Ok(DONE)
}

/// Writes a text as `put_all` does, unless memory for it was refused.
pub fn put_text<O: Write>(output: &mut O, text: Result<Vec<u8>, AllocError>) -> Result<u8, Fault>
    ensures put { IfOk text (λ v. IsPut v.items (O.contents output.old) (O.contents output.new) result) }
    ensures refused { IfErr text (λ error. (result ≡ Err (Fault.OutOfMemory error)) × (O.contents output.new ≡ O.contents output.old)) }
{
    let text = text?;
    put_all(output, text.as_slice())
}

/// Writes a line of at most `LINE` bytes before its end, as `put` writes a text.
pub fn put_line<O: Write>(output: &mut O, text: &[u8]) -> Result<(), Fault>
    requires { length text.now ≤ LINE }
    ensures ok { OnOk result (Appends (O.contents output.old) (O.contents output.new) (text.now ++ codes "\n")) }
    ensures err { OnErr result (AppendsPart (O.contents output.old) (O.contents output.new) (text.now ++ codes "\n")) }
    ensures fault { IfErr result IsOutputFault }
{
    put(output, line_of(text).as_slice())
}

// Returns a text with its line end.
fn line_of(text: &[u8]) -> ArrayVec<u8, ROOM>
    requires { length text.now ≤ LINE }
    ensures { result.items ≡ text.now ++ codes "\n" }
{
    let mut line = ArrayVec::new();
    let _fits = line.try_extend_from_slice(text);
    line.push(b'\n');
    line
}
