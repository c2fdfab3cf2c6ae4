//! Whole runs, over readers and writers in memory.
use super::serve;
use std::alloc::Global;
use std::cell::Cell;
use std::fmt::Write as _;
use std::io;
use std::io::{Error, ErrorKind, Read, Write};
use std::process::Abort;
use std::test::Fail;

/// Returns the text that is written if the whole input is available at once.
fn served(alloc: Global, input: &[u8]) -> Result<String, Fail> {
    let mut reader = input;
    let mut written = Vec::new(alloc);
    serve(alloc, &mut reader, &mut written)?;
    Ok(String::from_utf8(written)?)
}

/// Asserts that this text is written for an input.
fn assert_served(rt: &(impl AllocGlobal + Abort), input: &[u8], output: &str) -> Result<(), Fail> {
    let found = served(rt.alloc(), input)?;
    let input = str::from_utf8(input).unwrap_or("not text");
    assert_eq!(*rt; found.as_str(), output, "at {input:?}");
    Ok(())
}

/// Supplies its bytes, at most `most` at a time, and then ends or fails. It keeps how many bytes were written before each
/// of the first reads.
#[derive(Drop)]
struct FakeReader<'a> {
    rest: &'a [u8],
    most: usize,
    is_interrupted: bool,
    failure: Option<ErrorKind>,
    reads: usize,
    written: &'a Cell<usize>,
    written_before: [usize; 4],
}

impl<'a> FakeReader<'a> {
    fn new(bytes: &'a [u8], written: &'a Cell<usize>) -> FakeReader<'a> {
        FakeReader {
            rest: bytes,
            most: usize::MAX,
            is_interrupted: false,
            failure: None,
            reads: 0,
            written,
            written_before: [0; 4],
        }
    }
}

impl Read for FakeReader<'_> {
    fn read(&mut self, buf: &mut [u8]) -> io::Result<usize> {
        let (reads, written) = (self.reads, self.written.get());
        if let Some(count) = self.written_before.get_mut(reads) {
            *count = written;
        }
        self.reads = reads.saturating_add(1);
        if self.is_interrupted {
            self.is_interrupted = false;
            return Err(Error::from(ErrorKind::Interrupted));
        }
        let count = self.rest.len().min(buf.len()).min(self.most);
        if count == 0 {
            return match self.failure {
                Some(kind) => Err(Error::from(kind)),
                None => Ok(0),
            };
        }
        let (front, rest) = self.rest.split_at(count);
        buf[..count].copy_from_slice(front);
        self.rest = rest;
        Ok(count)
    }
}

/// Accepts `room` bytes, and then fails. It counts the bytes that it accepts.
#[derive(Drop)]
struct FakeWriter<'a> {
    bytes: Vec<u8>,
    room: usize,
    writes: usize,
    written: &'a Cell<usize>,
}

impl Write for FakeWriter<'_> {
    fn write(&mut self, buf: &[u8]) -> io::Result<usize> {
        self.writes = self.writes.saturating_add(1);
        let count = buf.len().min(self.room);
        if count == 0 {
            return Err(Error::from(ErrorKind::BrokenPipe));
        }
        self.bytes.extend_from_slice(&buf[..count])?;
        self.written.set(self.bytes.len());
        self.room -= count;
        Ok(count)
    }

    fn flush(&mut self) -> io::Result<()> {
        Ok(())
    }
}

/// Asserts what a run returns, how often it writes, and what, if the writer accepts `room` bytes.
fn assert_run(
    rt: &(impl AllocGlobal + Abort),
    reader: &mut FakeReader<'_>,
    room: usize,
    expected: &str,
) -> Result<(), Fail> {
    let mut writer = FakeWriter {
        bytes: Vec::new(rt.alloc()),
        room,
        writes: 0,
        written: reader.written,
    };
    let outcome = serve(rt.alloc(), reader, &mut writer);
    let (writes, text) = (writer.writes, str::from_utf8(&writer.bytes)?);
    let found = format!(in rt.alloc(); "{outcome:?} after {writes} writes: {text}")?;
    assert_eq!(*rt; found.as_str(), expected);
    Ok(())
}

#[test]
fn takes_a_long_line_as_one(rt: HostRuntime) -> Result<(), Fail> {
    for length in [4095, 4096, 4097, 4098, 8192, 8193, 20000] {
        let mut input = vec![in rt.alloc(); b'a'; length]?;
        assert_served(&rt, &input, "fault\n")?;
        input.extend_from_slice(b"\nlen")?;
        assert_served(&rt, &input, "fault\n0\n")?;
    }
    Ok(())
}

#[test]
fn takes_the_last_line_without_its_end(rt: HostRuntime) -> Result<(), Fail> {
    let runs = [
        ("", ""),
        ("len", "0\n"),
        ("len\n", "0\n"),
        ("len\nlen", "0\n0\n"),
        ("len\n\n", "0\nfault\n"),
        ("\n", "fault\n"),
        ("a", "fault\n"),
    ];
    for (input, output) in runs {
        assert_served(&rt, input.as_bytes(), output)?;
    }
    Ok(())
}

#[test]
fn prints_a_list_longer_than_its_buffer(rt: HostRuntime) -> Result<(), Fail> {
    let (mut input, mut output) = (String::new(rt.alloc()), String::new(rt.alloc()));
    for number in 0..1000 {
        writeln!(input, "insert key_{number} {number}")?;
        output.push_str("none\n")?;
    }
    input.push_str("list")?;
    for number in 0..1000 {
        let end = if number < 999 { ' ' } else { '\n' };
        write!(output, "key_{number}={number}{end}")?;
    }
    assert_served(&rt, input.as_bytes(), output.as_str())
}

#[test]
fn reads_in_any_pieces(rt: HostRuntime) -> Result<(), Fail> {
    for most in [1, 2, 3, 7] {
        let written = Cell::new(0);
        let mut reader = FakeReader::new(b"insert a 1\ninsert a 2\nlist", &written);
        reader.most = most;
        reader.is_interrupted = true;
        let expected = "Ok(()) after 3 writes: none\nsome 1\na=2\n";
        assert_run(&rt, &mut reader, usize::MAX, expected)?;
    }
    Ok(())
}

#[test]
fn stops_if_a_read_fails(rt: HostRuntime) -> Result<(), Fail> {
    for (input, expected) in [
        ("", "Err(Reading) after 0 writes: "),
        ("len", "Err(Reading) after 0 writes: "),
        ("insert a 1\nget", "Err(Reading) after 1 writes: none\n"),
    ] {
        let written = Cell::new(0);
        let mut reader = FakeReader::new(input.as_bytes(), &written);
        reader.failure = Some(ErrorKind::Other);
        assert_run(&rt, &mut reader, usize::MAX, expected)?;
    }
    Ok(())
}

#[test]
fn stops_if_a_write_fails(rt: HostRuntime) -> Result<(), Fail> {
    for (room, expected) in [
        (0, "Err(Writing) after 1 writes: "),
        (2, "Err(Writing) after 2 writes: no"),
        (5, "Err(Writing) after 2 writes: none\n"),
        (8, "Err(Writing) after 3 writes: none\nsom"),
        (12, "Err(Writing) after 3 writes: none\nsome 1\n"),
    ] {
        let written = Cell::new(0);
        let mut reader = FakeReader::new(b"insert a 1\ninsert a 2\nlist\n", &written);
        assert_run(&rt, &mut reader, room, expected)?;
        assert!(rt; reader.reads == 1, "at {room}");
    }
    Ok(())
}

/// Each line is one read of 11 bytes. The answers are `none`, `some 1` and `some 2`.
#[test]
fn writes_each_answer_before_the_next_read(rt: HostRuntime) -> Result<(), Fail> {
    let written = Cell::new(0);
    let mut reader = FakeReader::new(b"insert a 1\ninsert a 2\ninsert a 3\n", &written);
    reader.most = 11;
    let expected = "Ok(()) after 3 writes: none\nsome 1\nsome 2\n";
    assert_run(&rt, &mut reader, usize::MAX, expected)?;
    assert!(rt; reader.written_before == [0, 5, 12, 19]);
    Ok(())
}
