//! The loop over the input: reads lines, executes their commands, and writes the answers.
ghost use Rattle.std.specs.{Prelude.{◌≡◌, ◌∷◌, ◌++◌, [], IfErr, IsErrOf, List, OnOk, ℕ}, Io.KnownBytes.{Appends, IsAtEnd}};
ghost use Rattle.vecmap_run.specs.{Lines.{all_lines, ended_lines, within_limit}, Print.printed};
ghost use Rattle.vecmap_run.specs.Service.{Answers, AnswersLine, GoesOn, HasServed, Serves};

use crate::answer::execute_line;
use crate::buffer::Buffer;
use crate::line::Line;
use crate::print::Printed;
use std::alloc::Global;
use std::fmt;
use std::fmt::Write as _;
use std::io::{ErrorKind, Read, Write};
use vecmap::VecMap;

#[cfg(test)]
mod refusals;
#[cfg(test)]
mod tests;

// The greatest number of bytes that are read at once.
const READ_BYTES: usize = 4096;

/// Why `serve` stopped before the end of its input.
#[derive(Clone, Copy, Debug, PartialEq, Eq)]
pub enum Fault {
    /// A read failed, or there were too many of them.
    Reading,
    /// A write failed.
    Writing,
}

/// Reads lines from `reader` and writes the answer to each on `writer`. The map is empty at first.
///
/// A line ends with a line break or with the input. Each answer is written before the next line is executed. An
/// interrupted read is tried again.
///
/// # Errors
///
/// - [`Fault::Reading`] if a read fails, or after `u64::MAX` reads.
/// - [`Fault::Writing`] if a write fails. It is then unknown how much of the answer was written.
pub fn serve<R: Read, W: Write>(alloc: Global, reader: &mut R, writer: &mut W) -> Result<(), Fault>
    // At the end of the input, the text answers all its lines.
    ensures end { OnOk result (IsAtEnd (R.remaining reader.new)) }
    ensures ok { OnOk result (Serves all_lines
        (R.remaining reader.old) (R.remaining reader.new)
        (W.contents writer.old) (W.contents writer.new)) }

    // If reading fails, the text answers the lines that have ended.
    ensures reading { IsErrOf result Fault.Reading → Serves ended_lines
        (R.remaining reader.old) (R.remaining reader.new)
        (W.contents writer.old) (W.contents writer.new) }
{
    let mut service = Service::new(alloc);
    let mut chunk = [0u8; READ_BYTES];
    for _ in 0..u64::MAX {
        match reader.read(&mut chunk) {
            Ok(0) => return service.finish(writer),
            Ok(count) => service.take(&chunk[..count], writer)?,
            Err(error) if error.kind() == ErrorKind::Interrupted => {}
            Err(_error) => return Err(Fault::Reading),
        }
    }
    Err(Fault::Reading)
}

// The map, and the line that is being read.
#[derive(Drop)]
struct Service {
    alloc: Global,
    map: VecMap<String, i64>,
    line: Line,
}

impl Service {
    fn new(alloc: Global) -> Service
        ensures { HasServed result.line result.map.entries [] [] }
    {
        Service {
            alloc,
            map: VecMap::new(alloc),
            line: Line::new(),
        }
    }

    // Reads the next bytes of the input, and writes the answer to each line that ends in them.
    fn take<W: Write>(&mut self, bytes: &[u8], writer: &mut W) -> Result<(), Fault>
        ensures ok { OnOk result (GoesOn self.old.line self.old.map.entries bytes.now
            (W.contents writer.old) (W.contents writer.new) self.new.line self.new.map.entries) }
        ensures err { IfErr result (λ error. error ≡ Fault.Writing) }
    {
        for byte in bytes {
            self.take_byte(*byte, writer)?;
        }
        Ok(())
    }

    fn take_byte<W: Write>(&mut self, byte: u8, writer: &mut W) -> Result<(), Fault>
        ensures ok { OnOk result (GoesOn self.old.line self.old.map.entries (byte ∷ [])
            (W.contents writer.old) (W.contents writer.new) self.new.line self.new.map.entries) }
        ensures err { IfErr result (λ error. error ≡ Fault.Writing) }
    {
        if byte == b'\n' {
            return self.answer(writer);
        }
        self.line.push(byte);
        Ok(())
    }

    // Writes the answer to the line that ends with the input, if there is one.
    fn finish<W: Write>(&mut self, writer: &mut W) -> Result<(), Fault>
        ensures ok { OnOk result ((input text : List ℕ)
            → HasServed self.old.line self.old.map.entries input text
            → (more : List ℕ) × Appends (W.contents writer.old) (W.contents writer.new) more
            × Answers [] (all_lines input) (text ++ more) self.new.map.entries) }
        ensures err { IfErr result (λ error. error ≡ Fault.Writing) }
    {
        if self.line.is_empty() {
            return Ok(());
        }
        self.answer(writer)
    }

    // Writes the answer to the line, and begins the next one.
    fn answer<W: Write>(&mut self, writer: &mut W) -> Result<(), Fault>
        ensures ok { OnOk result ((line : List ℕ) → self.old.line ≡ within_limit line
            → (text : List ℕ) × Appends (W.contents writer.old) (W.contents writer.new) text
            × AnswersLine self.old.map.entries line text self.new.map.entries) }
        ensures line { self.new.line ≡ within_limit [] }
        ensures err { IfErr result (λ error. error ≡ Fault.Writing) }
    {
        let answer = execute_line(self.alloc, &mut self.map, self.line.bytes());
        self.line.clear();
        let printed = Printed {
            answer,
            pairs: self.map.as_slice(),
        };
        match print(printed, writer) {
            Ok(()) => Ok(()),
            Err(_error) => Err(Fault::Writing),
        }
    }
}

// Writes an answer, and the end of its line.
fn print<W: Write>(answer: Printed<'_>, writer: &mut W) -> fmt::Result
    ensures { OnOk result (Appends (W.contents writer.old) (W.contents writer.new)
        (printed answer.entry.answer answer.entry.pairs.now ++ 10 ∷ [])) }
{
    let mut buffer = Buffer::new(writer);
    writeln!(buffer, "{answer}")?;
    buffer.send()
}
