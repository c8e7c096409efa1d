use mail_base::{EdgeFault, Failed, Text};
use mail_edge::{Files, Sink, Source};
use session_devices::{DiskFiles, InputStream, OutputStream, put_peer};
use std::io::{ErrorKind, Read, Write};
use std::net::IpAddr;
use std::os::fd::AsRawFd;
use std::os::unix::fs::symlink;
use std::test::Fail;
use std::{fs, io};

/// A reader or a writer whose calls fail in turn: the first and then each one so many calls
/// behind it, or none where that is 0.
#[derive(Drop)]
struct Faulty<S> {
    inner: S,
    every: u32,
    error: ErrorKind,
    calls: u32,
}

impl<S> Faulty<S> {
    fn new(inner: S, every: u32, error: ErrorKind) -> Faulty<S> {
        Faulty {
            inner,
            every,
            error,
            calls: 0,
        }
    }

    // Counts a call, which fails or not.
    fn call(&mut self) -> io::Result<()> {
        let fails = self.calls.checked_rem(self.every) == Some(0);
        self.calls = self.calls.wrapping_add(1);
        if fails {
            return Err(io::Error::from(self.error));
        }
        Ok(())
    }
}

impl<S: Read> Read for Faulty<S> {
    fn read(&mut self, buf: &mut [u8]) -> io::Result<usize> {
        self.call()?;
        self.inner.read(buf)
    }
}

impl<S: Write> Write for Faulty<S> {
    fn write(&mut self, bytes: &[u8]) -> io::Result<usize> {
        self.call()?;
        self.inner.write(bytes)
    }

    fn flush(&mut self) -> io::Result<()> {
        self.inner.flush()
    }
}

/// How often a signal comes: never, or in each second call.
const SIGNALS: [u32; 2] = [0, 2];

// A source over bytes whose reads fail in turn.
fn source(every: u32, error: ErrorKind) -> InputStream<Faulty<&'static [u8]>> {
    InputStream::new(Faulty::new(b"bytes".as_slice(), every, error))
}

// Whether these bytes are taken next.
fn takes(source: &mut impl Source, wanted: &[u8]) -> bool {
    let mut buf = [0u8; 4];
    match source.take(&mut buf) {
        Ok(count) => buf.get(..count) == Some(wanted),
        Err(Failed) => false,
    }
}

#[test]
fn a_reader_is_a_source(rt: HostRuntime) {
    for every in SIGNALS {
        let mut source = source(every, ErrorKind::Interrupted);
        assert!(rt; takes(&mut source, b"byte"));
        assert!(rt; takes(&mut source, b"s"));
        assert!(rt; takes(&mut source, b""));
    }
    let mut broken = source(1, ErrorKind::Other);
    assert_eq!(rt; broken.take(&mut [0u8; 4]), Err(Failed));
}

// Whether bytes reach a writer whose writes fail in turn.
fn gives(rt: &HostRuntime, every: u32, error: ErrorKind) -> Result<bool, Failed> {
    let mut written = Vec::new(rt.alloc());
    OutputStream::new(Faulty::new(&mut written, every, error)).give(b"bytes")?;
    Ok(written.as_slice() == b"bytes".as_slice())
}

#[test]
fn a_writer_is_a_sink(rt: HostRuntime) {
    for every in SIGNALS {
        assert_eq!(rt; gives(&rt, every, ErrorKind::Interrupted), Ok(true));
    }
    assert_eq!(rt; gives(&rt, 1, ErrorKind::Other), Err(Failed));
}

#[test]
fn addresses_are_those_that_rules_expect(rt: HostRuntime) {
    for (peer, wanted) in [
        (IpAddr::from([192u8, 0, 2, 1]), b"192.0.2.1".as_slice()),
        (
            IpAddr::from([0u16, 0, 0, 0, 0, 0xffff, 0xc000, 0x0201]),
            b"192.0.2.1",
        ),
        (
            IpAddr::from([0x2001u16, 0xdb8, 0, 0, 0, 0, 0, 1]),
            b"IPv6:2001:db8::1",
        ),
    ] {
        let mut buf = [0u8; 64];
        let count = put_peer(Some(peer), &mut buf);
        assert!(rt; buf.get(..count) == Some(wanted));
    }
}

// Whether a file has these bytes, or isn't there.
fn is_so(there: &Option<Text>, wanted: Option<&[u8]>) -> bool {
    match (there, wanted) {
        (Some(text), Some(bytes)) => text.bytes() == bytes,
        (None, None) => true,
        _ => false,
    }
}

// Whether the next file that is read is so; `None` where it isn't there.
fn is_read(
    rt: &HostRuntime,
    files: &mut DiskFiles<'_, HostRuntime>,
    name: &[u8],
    wanted: Option<&[u8]>,
) -> Result<bool, EdgeFault> {
    let name = Text::of(rt.alloc(), name)?;
    let there = files.read(rt.alloc(), &name)?;
    Ok(is_so(&there, wanted))
}

// The same of the first file, and of one behind it.
fn is_both(rt: &HostRuntime, name: &[u8], wanted: Option<&[u8]>) -> Result<bool, EdgeFault> {
    let mut files = DiskFiles::new(rt);
    let is_first = is_read(rt, &mut files, name, wanted)?;
    Ok(is_first && is_read(rt, &mut files, name, wanted)?)
}

/// The file of the test, and a link that leads to itself.
const FILE: &str = "/tmp/sendmail-files-of-a-disk";

const RING: &str = "/tmp/sendmail-ring-of-a-disk";

/// Names that lead to no file.
const ABSENT: &[&[u8]] = &[
    b"",
    b"/tmp/sendmail-no-file-of-a-disk",
    b"/tmp/sendmail-files-of-a-disk/x",
    b"/tmp/sendmail-ring-of-a-disk",
    b"/tmp",
    b"/tmp/a\xff",
    b"/tmp/a\0b",
    &[b'x'; 256],
    &[b'/'; 5000],
];

#[test]
fn a_disk_has_files(rt: HostRuntime) -> Result<(), Fail> {
    fs::write(&rt, FILE, b"S5\xff\n".as_slice())?;
    assert_eq!(rt; is_both(&rt, FILE.as_bytes(), Some(b"S5\xff\n")), Ok(true));
    symlink(&rt, RING, RING)?;
    for name in ABSENT {
        assert_eq!(rt; is_both(&rt, name, None), Ok(true));
    }
    fs::remove_file(&rt, RING)?;
    fs::remove_file(&rt, FILE)?;
    assert_eq!(rt; is_both(&rt, FILE.as_bytes(), None), Ok(true));
    Ok(())
}

// Whether a pipe and a device are read as the first file, and aren't files behind it.
fn is_first_alone(rt: &HostRuntime) -> io::Result<bool> {
    let (reader, mut writer) = io::pipe(rt)?;
    writer.write_all(b"Cwmx")?;
    drop(writer);
    let mut name = Vec::new(rt.alloc());
    write!(name, "/dev/fd/{}", reader.as_raw_fd())?;
    Ok(
        [(name.as_slice(), b"Cwmx".as_slice()), (b"/dev/null", b"")]
            .iter()
            .all(|(name, wanted)| {
                let mut files = DiskFiles::new(rt);
                is_read(rt, &mut files, name, Some(wanted)) == Ok(true)
                    && is_read(rt, &mut files, name, None) == Ok(true)
            }),
    )
}

#[test]
fn the_first_file_may_be_a_pipe(rt: HostRuntime) -> Result<(), Fail> {
    assert!(rt; is_first_alone(&rt)?);
    Ok(())
}
