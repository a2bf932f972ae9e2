//! Reading bytes, and writing texts.
ghost use Rattle.std.specs.Prelude.{◌≡◌, OnOk, OnErr, IfOk, IfErr};
ghost use Rattle.std.specs.Io.KnownBytes.{Keeps, Appends};
ghost use Rattle.gm_play.specs.Dialogue.{without_return as without_return_spec};
ghost use Rattle.gm_play.specs.Sessions.{ReadsByte, AppendsPart, IsOfOutput};

use crate::session_error::SessionError;
use std::io::{self, ErrorKind, Read, Write};

/// Reads the next byte, or returns `None` at the end of the input. Reads no further byte.
pub fn read_byte<R: Read>(input: &mut R) -> io::Result<Option<u8>>
    ensures ok { IfOk result (λ o. ReadsByte (R.remaining input.old) (R.remaining input.new) o) }
    ensures err { OnErr result (Keeps (R.remaining input.old) (R.remaining input.new)) }
{
    let mut buffer = [0u8];
    match input.read(&mut buffer) {
        Ok(0) => Ok(None),
        Ok(_) => Ok(Some(buffer[0])),
        Err(error) => Err(error),
    }
}

/// Returns a line without the carriage return at its end, if it has one.
pub fn without_return(line: &[u8]) -> &[u8]
    ensures { result.now ≡ without_return_spec line.now }
{
    match line.strip_suffix(b"\r") {
        Some(text) => text,
        None => line,
    }
}

/// Writes all of a text. After an error a prefix of it is written; the contract of `write_all` does not state this.
pub fn write_text<W: Write>(output: &mut W, text: &[u8]) -> io::Result<()>
    ensures ok { OnOk result (Appends (W.contents output.old) (W.contents output.new) text.now) }
    ensures err { OnErr result (AppendsPart (W.contents output.old) (W.contents output.new) text.now) }
{
    let mut done = 0;
    while done < text.len() {
        match output.write(&text[done..]) {
            Ok(0) => return Err(io::Error::from(ErrorKind::WriteZero)),
            Ok(count) => done += count,
            Err(error) => return Err(error),
        }
    }
    Ok(())
}

/// Writes all of a text of a session. After an error a prefix of it is written.
pub(crate) fn say<W: Write>(output: &mut W, text: &[u8]) -> Result<(), SessionError>
    ensures ok { OnOk result (Appends (W.contents output.old) (W.contents output.new) text.now) }
    ensures err { IfErr result (λ e. IsOfOutput e × AppendsPart (W.contents output.old) (W.contents output.new) text.now) }
{
    match write_text(output, text) {
        Ok(()) => Ok(()),
        Err(error) if error.kind() == ErrorKind::BrokenPipe => Err(SessionError::OutputClosed),
        Err(_) => Err(SessionError::WriteFailed),
    }
}
