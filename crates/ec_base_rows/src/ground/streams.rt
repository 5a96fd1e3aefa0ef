//! Sources and sinks.

use crate::ground::words::{cut, end_line, index, number, numbers, put_word};
use ec_base::{
    Bytes, Failed, InputStop, MemSink, MemSource, OutOfMemory, Sink, Source, StdSink, StdSource,
    put_all, read_all,
};
use std::alloc::Global;
use std::io;
use std::io::BufWriter;

// Prints what reading to the end answers.
fn put_read<S: Source>(
    alloc: Global,
    source: &mut S,
    limit: usize,
    out: &mut Bytes,
) -> Result<(), OutOfMemory> {
    match read_all(alloc, source, limit) {
        Ok(bytes) => {
            put_word(out, b"all")?;
            put_word(out, bytes.as_slice())
        }
        Err(InputStop::Fault) => put_word(out, b"fault"),
        Err(InputStop::TooLong) => put_word(out, b"long"),
        Err(InputStop::OutOfMemory) => Err(OutOfMemory),
    }
}

// Prints whether a put or a flush was done.
fn put_done(out: &mut Bytes, done: Result<(), Failed>) -> Result<(), OutOfMemory> {
    put_word(out, if done.is_ok() { b"done" } else { b"failed" })
}

// What stands behind the first two numbers.
fn failing(given: &[u64]) -> &[u64] {
    given.get(2..).unwrap_or(&[])
}

// The number at a place, as an index, 0 where there is none.
fn index_at(given: &[u64], place: usize) -> usize {
    index(given.get(place).copied().unwrap_or(0))
}

/// `TEXT CHUNK LIMIT FAILING..`: prints what reading it to its end answers, and what is read behind that.
pub fn read(alloc: Global, words: &str, out: &mut Bytes) -> Result<(), OutOfMemory> {
    let (text, rest) = cut(words);
    let given = numbers(alloc, rest)?;
    let given = given.as_slice();
    let chunk = index_at(given, 0).max(1);
    let mut source = MemSource::new(alloc, text.as_bytes(), chunk, failing(given))?;
    put_read(alloc, &mut source, index_at(given, 1), out)?;
    put_read(alloc, &mut source, 9, out)?;
    end_line(out)
}

/// `TEXT ROOM CHUNK FAILING..`: prints whether all of it is put, whether a flush is done, and what the sink holds then.
pub fn put(alloc: Global, words: &str, out: &mut Bytes) -> Result<(), OutOfMemory> {
    let (text, rest) = cut(words);
    let given = numbers(alloc, rest)?;
    let given = given.as_slice();
    let chunk = index_at(given, 1).max(1);
    let mut sink = MemSink::new(alloc, index_at(given, 0), chunk, failing(given))?;
    put_done(out, put_all(&mut sink, text.as_bytes()))?;
    put_done(out, sink.flush())?;
    put_word(out, sink.held())?;
    end_line(out)
}

/// A reader that fails at every call.
#[derive(Drop)]
struct Broken;

impl io::Read for Broken {
    fn read(&mut self, _buf: &mut [u8]) -> io::Result<usize> {
        Err(io::ErrorKind::BrokenPipe.into())
    }
}

/// Prints what reading this text by a reader of std answers, and what a reader that fails does.
pub fn reader(alloc: Global, text: &str, out: &mut Bytes) -> Result<(), OutOfMemory> {
    put_read(alloc, &mut StdSource::new(text.as_bytes()), 5, out)?;
    put_read(alloc, &mut StdSource::new(Broken), 5, out)?;
    end_line(out)
}

/// A writer that takes at most two bytes at a time, and fails where it is full.
#[derive(Drop)]
struct Narrow {
    held: Vec<u8>,
    room: usize,
}

impl io::Write for Narrow {
    fn write(&mut self, buf: &[u8]) -> io::Result<usize> {
        let space = self.room.saturating_sub(self.held.len());
        let count = buf.len().min(space).min(2);
        if count == 0 {
            return Err(io::ErrorKind::BrokenPipe.into());
        }
        self.held.extend_from_slice(&buf[..count])?;
        Ok(count)
    }

    fn flush(&mut self) -> io::Result<()> {
        Ok(())
    }
}

// Puts pieces, and prints whether each is put, and whether a flush is done.
fn put_pieces<S: Sink>(sink: &mut S, pieces: &str, out: &mut Bytes) -> Result<(), OutOfMemory> {
    for piece in pieces.split(" ") {
        put_done(out, put_all(sink, piece.as_bytes()))?;
    }
    put_done(out, sink.flush())
}

// Puts pieces into a writer, through a buffer where that has room.
fn write_pieces(
    alloc: Global,
    writer: &mut Narrow,
    buffer: usize,
    pieces: &str,
    out: &mut Bytes,
) -> Result<(), OutOfMemory> {
    if buffer == 0 {
        return put_pieces(&mut StdSink::new(writer), pieces, out);
    }
    match BufWriter::with_capacity(alloc, buffer, writer) {
        Ok(buffered) => put_pieces(&mut StdSink::new(buffered), pieces, out),
        Err(_) => Err(OutOfMemory),
    }
}

/// `ROOM BUFFER PIECE..`: prints whether each piece is put into a writer with this room, behind a buffer of so many bytes or
/// none, whether a flush is done, and what the writer holds then.
pub fn writer(alloc: Global, words: &str, out: &mut Bytes) -> Result<(), OutOfMemory> {
    let (room, rest) = cut(words);
    let (buffer, pieces) = cut(rest);
    let mut narrow = Narrow {
        held: Vec::new(alloc),
        room: index(number(room)),
    };
    write_pieces(alloc, &mut narrow, index(number(buffer)), pieces, out)?;
    put_word(out, narrow.held.as_slice())?;
    end_line(out)
}
