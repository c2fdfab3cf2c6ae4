//! A buffer in front of a writer, so that a short answer needs one write. Unlike std's `BufWriter`, it allocates
//! nothing: the program cannot run out of memory before it reads a line.
ghost use Rattle.std.specs.{Io.KnownBytes.Appends, Prelude.{◌≡◌, ◌∷◌, [], OnOk}};
ghost use Rattle.vecmap_run.specs.Print.{buffer_bytes};

use crate::bytes::Bytes;
use std::fmt;
use std::io::Write;

// The number of bytes that are gathered before they are written.
const GATHERED_BYTES: usize = 512;

/// Gathers text for a writer. The text is written by `send`, or earlier if the buffer is full.
#[derive(Drop)]
pub struct Buffer<'w, W> {
    writer: &'w mut W,
    gathered: Bytes<GATHERED_BYTES>,
}

impl<'w, W: Write> Buffer<'w, W> {
    /// Creates an empty buffer.
    pub fn new(writer: &'w mut W) -> Buffer<'w, W>
        ensures writer { result.writer ≡ writer.entry }
        ensures gathered { result.gathered ≡ [] }
    {
        Buffer {
            writer,
            gathered: Bytes::new(),
        }
    }

    /// Writes what has been gathered.
    pub fn send(self) -> fmt::Result
        ensures { OnOk result (Appends (W.contents self.entry.writer.now)
            (W.contents self.exit.0.now) self.entry.gathered) }
    {
        let Buffer { writer, gathered } = self;
        write_bytes(writer, gathered.as_slice())
    }

    // Gathers a byte. A full buffer is first written.
    fn push(&mut self, byte: u8) -> fmt::Result
        ensures writer { self.new.writer.ghost_name ≡ self.old.writer.ghost_name }
        ensures held { OnOk result (Appends (buffer_bytes W.contents self.old)
            (buffer_bytes W.contents self.new)
            (byte ∷ [])) }
    {
        if self.gathered.is_full() {
            write_bytes(self.writer, self.gathered.as_slice())?;
            self.gathered.clear();
        }
        self.gathered.push(byte);
        Ok(())
    }
}

impl<W: Write> fmt::Write for Buffer<'_, W> {
    // What the buffer and its writer hold grows by the text.
    ghost write_str_gives = { λ s text t. (t.writer.ghost_name ≡ s.writer.ghost_name)
        × Appends (buffer_bytes W.contents s) (buffer_bytes W.contents t) text };

    fn write_str(&mut self, text: &str) -> fmt::Result {
        for byte in text.as_bytes() {
            self.push(*byte)?;
        }
        Ok(())
    }
}

fn write_bytes<W: Write>(writer: &mut W, bytes: &[u8]) -> fmt::Result
    ensures { OnOk result (Appends (W.contents writer.old) (W.contents writer.new) bytes.now) }
{
    match writer.write_all(bytes) {
        Ok(()) => Ok(()),
        Err(_error) => Err(fmt::Error),
    }
}
