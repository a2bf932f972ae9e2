//! Lines that are written by one call each, so that programs that share a stream don't break up each other's lines.
ghost use Rattle.std.specs.Prelude.{◌++◌, codes, OnOk, IfSome, option_map};
ghost use Rattle.std.specs.Io.KnownBytes.{Appends};

use arrayvec::ArrayString;
use std::fmt::{Display, Write as _};
use std::io::{self, Write};

/// The bytes of the longest line that is written in one call: five numbers of twenty digits and the words between them.
const LINE: usize = 192;

/// Writes some words and a line end, by one call. A line that is too long for that is written in parts. After an error a first part of it may be written.
pub fn write_line<W: Write, T: Display>(output: &mut W, words: &T) -> io::Result<()>
    ensures { OnOk result (IfSome (T.output words.now) (λ text. Appends (W.contents output.old) (W.contents output.new) (text ++ codes "\n"))) }
{
    let mut line: ArrayString<LINE> = ArrayString::new();
    if writeln!(line, "{words}").is_err() {
        return writeln!(output, "{words}");
    }
    output.write_all(line.as_bytes())
}

/// A fault with the program's name before it.
#[derive(Drop)]
pub struct FaultLine<'a, T> {
    pub fault: &'a T,
}

impl<T: Display> Display for FaultLine<'_, T> {
    ghost output = { λ line. option_map (λ text. codes "gamesman: " ++ text) (T.output line.fault.now) };

    fn fmt<W: std::fmt::Write>(&self, f: &mut std::fmt::Formatter<W>) -> std::fmt::Result {
        write!(f, "gamesman: {}", self.fault)
    }
}
