//! The system's streams as a source and a sink. They tell their faults, and of their bytes what the reader and
//! the writer below them tell.
ghost use Rattle.std.specs.Prelude.{◌≡◌, ◌≤◌, ◌<◌, length, IfOk};
ghost use Rattle.std.specs.Io.KnownBytes.{ReadConsumes, WriteAppends};

use crate::{Sink, Source};
use device_faults::{Failed, Faults};
use std::io;
use std::io::{ErrorKind, Read, Write};

/// How often a call that a signal interrupted is tried again.
const TRIES: u32 = 1_000_000;

/// A source over a reader of the system, such as standard input or a file.
///
/// A read that a signal interrupted is tried again. Any other error of the reader is a fault.
#[derive(Drop)]
pub struct StdSource<R> {
    reader: R,
    faults: Faults,
}

impl<R: Read> StdSource<R> {
    /// A source that reads from `reader`. No call has failed.
    pub fn new(reader: R) -> Self
        ensures left { ⟦<StdSource<R> as Source>⟧.left result ≡ R.remaining reader }
        ensures calm { ⟦<StdSource<R> as Source>⟧.faults result ≡ 0 }
    {
        StdSource {
            reader,
            faults: Faults::new(),
        }
    }
}

impl<R: Read> Source for StdSource<R> {
    ghost left = { λ source. R.remaining source.reader };

    ghost faults = { λ source. source.faults };

    fn read(&mut self, buf: &mut [u8]) -> Result<usize, Failed> {
        match read_some(&mut self.reader, buf) {
            Ok(count) => Ok(count),
            Err(_) => Err(self.faults.rise()),
        }
    }
}

fn read_some<R: Read>(reader: &mut R, buf: &mut [u8]) -> io::Result<usize>
    ensures count { IfOk result (λ n. n ≤ length buf.new) }
    ensures bytes { ReadConsumes (R.remaining reader.old) (R.remaining reader.new) result buf.new }
{
    for _ in 0..TRIES {
        match reader.read(buf) {
            Err(error) if error.kind() == ErrorKind::Interrupted => {}
            answer => return answer,
        }
    }
    Err(io::Error::from(ErrorKind::Interrupted))
}

/// A sink over a writer of the system, such as standard output.
///
/// A write that a signal interrupted is tried again. Any other error of the writer is a fault, and so is
/// a writer that takes no byte of a piece that has some.
#[derive(Drop)]
pub struct StdSink<W> {
    writer: W,
    faults: Faults,
}

impl<W: Write> StdSink<W> {
    /// A sink that writes to `writer`. No call has failed.
    pub fn new(writer: W) -> Self
        ensures written { ⟦<StdSink<W> as Sink>⟧.written result ≡ W.contents writer }
        ensures calm { ⟦<StdSink<W> as Sink>⟧.faults result ≡ 0 }
    {
        StdSink {
            writer,
            faults: Faults::new(),
        }
    }
}

impl<W: Write> Sink for StdSink<W> {
    ghost written = { λ sink. W.contents sink.writer };

    ghost faults = { λ sink. sink.faults };

    fn write(&mut self, bytes: &[u8]) -> Result<usize, Failed> {
        match write_some(&mut self.writer, bytes) {
            Ok(count) if count > 0 || bytes.is_empty() => Ok(count),
            _ => Err(self.faults.rise()),
        }
    }
}

fn write_some<W: Write>(writer: &mut W, bytes: &[u8]) -> io::Result<usize>
    ensures count { IfOk result (λ n. n ≤ length bytes.now) }
    ensures bytes { WriteAppends (W.contents writer.old) (W.contents writer.new) result bytes.now }
{
    for _ in 0..TRIES {
        match writer.write(bytes) {
            Err(error) if error.kind() == ErrorKind::Interrupted => {}
            answer => return answer,
        }
    }
    Err(io::Error::from(ErrorKind::Interrupted))
}
