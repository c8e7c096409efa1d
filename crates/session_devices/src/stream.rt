// Standard input and output as a source and a sink. They tell nothing but how often they failed.
ghost use Rattle.std.specs.Prelude.{◌<◌, None, length};
ghost use Rattle.std.specs.Io.{ReadsAtMost};

use mail_base::Failed;
use mail_edge::{Sink, Source};
use shared_devices::counted;
use std::io;
use std::io::{ErrorKind, Read, Write};

/// A reader as a source. Its reads are made again where a signal came.
#[derive(Drop)]
pub struct InputStream<R> {
    reader: R,
    faults: u64,
}

impl<R> InputStream<R> {
    /// One of which nothing was taken yet.
    pub fn new(reader: R) -> InputStream<R> {
        InputStream { reader, faults: 0 }
    }
}

impl<R: Read> Source for InputStream<R> {
    ghost seen = { λ s. record { left = None; faults = s.faults } };

    fn take(&mut self, buf: &mut [u8]) -> Result<usize, Failed> {
        let went = read_some(&mut self.reader, buf);
        counted(&mut self.faults, went)
    }
}

/// Reads what comes, again where a signal came.
pub fn read_some(reader: &mut impl Read, buf: &mut [u8]) -> io::Result<usize>
    ensures { ReadsAtMost result buf.new }
{
    for _ in 0..u64::MAX {
        match reader.read(buf) {
            Ok(count) => return Ok(count),
            Err(error) if error.kind() == ErrorKind::Interrupted => {}
            Err(error) => return Err(error),
        }
    }
    Err(io::Error::from(ErrorKind::Interrupted))
}

/// A writer as a sink. Its writes are made again where a signal came.
#[derive(Drop)]
pub struct OutputStream<W> {
    writer: W,
    faults: u64,
}

impl<W> OutputStream<W> {
    /// One to which nothing was given yet.
    pub fn new(writer: W) -> OutputStream<W> {
        OutputStream { writer, faults: 0 }
    }
}

impl<W: Write> Sink for OutputStream<W> {
    ghost seen = { λ s. record { written = None; faults = s.faults } };

    fn give(&mut self, bytes: &[u8]) -> Result<(), Failed> {
        let went = self.writer.write_all(bytes);
        counted(&mut self.faults, went)
    }
}
