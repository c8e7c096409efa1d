// Descriptors of the C library. Each call is made again where a signal interrupted it.
use mail_base::Failed;

/// The most bytes that a pipe of Linux holds.
const PIPE: usize = 65_536;

/// The name of a file that is to lose it.
const UNNAMED: &[u8; 20] = b"/tmp/sendmail-XXXXXX";

/// An open file or directory, which no program that is started keeps open by itself. It is closed
/// where it is dropped.
pub struct Descriptor {
    fd: i32,
}

impl Drop for Descriptor {
    fn drop(self) {
        let Descriptor { fd } = self;
        libc::close(fd);
    }
}

impl Descriptor {
    /// Opens a file for reading, or answers `None` where there is none.
    pub fn to_read(path: &[u8]) -> Result<Option<Descriptor>, Failed> {
        match opened(path, libc::O_RDONLY) {
            Ok(file) => Ok(Some(file)),
            Err(libc::ENOENT) => Ok(None),
            Err(_) => Err(Failed),
        }
    }

    /// Makes a file for writing, for its owner alone. What had its name before loses it.
    pub fn to_write(path: &[u8]) -> Result<Descriptor, Failed> {
        let flags = libc::O_WRONLY | libc::O_CREAT | libc::O_EXCL;
        match opened(path, flags) {
            Ok(file) => return Ok(file),
            Err(libc::EEXIST) => {}
            Err(_) => return Err(Failed),
        }
        if os::unlink(path) != 0 {
            return Err(Failed);
        }
        opened(path, flags).map_err(|_| Failed)
    }

    /// Opens a file that is there for writing, as a device whose disk is full.
    pub fn to_change(path: &[u8]) -> Result<Descriptor, Failed> {
        opened(path, libc::O_WRONLY).map_err(|_| Failed)
    }

    /// What holds these bytes and no others, to be read from the first one: a pipe that nobody writes
    /// any more where they fit into one, and otherwise a file with no name.
    pub fn holding(bytes: &[u8]) -> Result<Descriptor, Failed> {
        if bytes.len() <= PIPE {
            if let Some(pipe) = filled(bytes) {
                return Ok(pipe);
            }
        }
        let file = Descriptor::unnamed()?;
        file.write_all(bytes)?;
        file.rewind()?;
        Ok(file)
    }

    /// Makes a file for reading and writing that has no name and is its owner's alone. It is gone
    /// once nobody has it open.
    pub fn unnamed() -> Result<Descriptor, Failed> {
        let mut name = *UNNAMED;
        let fd = os::create_temp(&mut name);
        if fd < 0 {
            return Err(Failed);
        }
        let made = Descriptor { fd };
        if os::unlink(&name) != 0 {
            return Err(Failed);
        }
        // Another number of the file, which programs that are started don't inherit.
        match os::duplicate(made.fd) {
            fd if fd >= 0 => Ok(Descriptor { fd }),
            _ => Err(Failed),
        }
    }

    /// Opens the file in which all that is written is lost, and which is empty.
    pub fn null() -> Result<Descriptor, Failed> {
        opened(b"/dev/null", libc::O_RDWR).map_err(|_| Failed)
    }

    /// Its number.
    pub fn number(&self) -> i32 {
        self.fd
    }

    /// Opens a directory, or answers the number of the error.
    pub fn to_dir(path: &[u8]) -> Result<Descriptor, i32> {
        for _ in 0..u64::MAX {
            let fd = os::open_dir_at(libc::AT_FDCWD, path);
            if fd >= 0 {
                return Ok(Descriptor { fd });
            }
            let error = os::errno();
            if error != libc::EINTR {
                return Err(error);
            }
        }
        Err(libc::EINTR)
    }

    /// Locks it, or answers the number of the error: `EAGAIN` where it is locked through another
    /// opening of it.
    pub fn lock(&self) -> Result<(), i32> {
        match libc::flock(self.fd, libc::LOCK_EX | libc::LOCK_NB) {
            0 => Ok(()),
            _ => Err(os::errno()),
        }
    }

    /// Puts bytes at the front of a buffer; 0 at the file's end.
    pub fn read(&self, buf: &mut [u8]) -> Result<usize, Failed> {
        for _ in 0..u64::MAX {
            if let Ok(count) = usize::try_from(libc::read(self.fd, buf)) {
                return Ok(count);
            }
            if os::errno() != libc::EINTR {
                break;
            }
        }
        Err(Failed)
    }

    /// Writes all of the bytes.
    pub fn write_all(&self, bytes: &[u8]) -> Result<(), Failed> {
        let mut rest = bytes;
        for _ in 0..u64::MAX {
            if rest.is_empty() {
                return Ok(());
            }
            match usize::try_from(libc::write(self.fd, rest)) {
                Ok(count) => rest = rest.get(count..).ok_or(Failed)?,
                Err(_) if os::errno() == libc::EINTR => {}
                Err(_) => break,
            }
        }
        Err(Failed)
    }

    /// Waits until all that it holds has reached the disk.
    pub fn sync(&self) -> Result<(), Failed> {
        for _ in 0..u64::MAX {
            if libc::fsync(self.fd) == 0 {
                return Ok(());
            }
            if os::errno() != libc::EINTR {
                break;
            }
        }
        Err(Failed)
    }

    /// Closes it. A disk may tell only here that it had no room. A close that a signal interrupted
    /// has closed.
    pub fn close(self) -> Result<(), Failed> {
        let Descriptor { fd } = self;
        if libc::close(fd) == 0 || os::errno() == libc::EINTR {
            Ok(())
        } else {
            Err(Failed)
        }
    }

    /// Puts the next names of a directory at the front of a buffer, each ended by a NUL; 0 where
    /// there are no more.
    pub fn names(&self, buf: &mut [u8]) -> Result<usize, Failed> {
        for _ in 0..u64::MAX {
            let count = os::read_dir(self.fd, buf);
            if count > 0 {
                return Ok(count);
            }
            match os::errno() {
                0 => return Ok(0),
                libc::EINTR => {}
                _ => break,
            }
        }
        Err(Failed)
    }

    /// Begins again with a file's first byte, or a directory's first name.
    pub fn rewind(&self) -> Result<(), Failed> {
        match libc::lseek(self.fd, 0, libc::SEEK_SET) {
            0 => Ok(()),
            _ => Err(Failed),
        }
    }

    /// Whether a name in a directory is that of a file: not of a directory, also of one that may
    /// not be read, nor of what is gone since it was listed.
    pub fn has_file(&self, name: &[u8]) -> Result<bool, Failed> {
        for _ in 0..u64::MAX {
            let fd = os::open_dir_at(self.fd, name);
            if fd >= 0 {
                libc::close(fd);
                return Ok(false);
            }
            match os::errno() {
                libc::ENOTDIR | libc::ELOOP => return Ok(true),
                libc::ENOENT | libc::EACCES => return Ok(false),
                libc::EINTR => {}
                _ => break,
            }
        }
        Err(Failed)
    }
}

// The end of a pipe that holds these bytes, and whose other end is closed; `None` where there is no
// pipe or no room in it for all of them.
fn filled(bytes: &[u8]) -> Option<Descriptor> {
    let mut ends = [-1i32; 2];
    if unsafe { libc::pipe2(&mut ends, libc::O_CLOEXEC) } != 0 {
        return None;
    }
    let [read, written] = ends;
    let (read, written) = (Descriptor { fd: read }, Descriptor { fd: written });
    // A pipe may have less room than most have, and no write waits for that.
    if os::set_nonblocking(written.fd, true) != 0 {
        return None;
    }
    let count = usize::try_from(libc::write(written.fd, bytes)).ok()?;
    if count == bytes.len() {
        Some(read)
    } else {
        None
    }
}

// Opens a file, or answers the number of the error.
fn opened(path: &[u8], flags: i32) -> Result<Descriptor, i32> {
    for _ in 0..u64::MAX {
        let fd = os::open_with(path, flags, 0o600);
        if fd >= 0 {
            return Ok(Descriptor { fd });
        }
        let error = os::errno();
        if error != libc::EINTR {
            return Err(error);
        }
    }
    Err(libc::EINTR)
}
