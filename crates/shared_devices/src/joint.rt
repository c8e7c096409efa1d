// One sync for all files of a file system, by a program of the system: the C library's calls of this
// kit know only syncs of one file.
use crate::descriptor::Descriptor;
use arrayvec::ArrayVec;

/// The environment variable that has the path of the program; empty, files are synced one by one.
pub const SYNC: &[u8] = b"SENDMAIL_SYNC";

/// The program of coreutils. With `-f` it syncs the file system of the file that it is given, and
/// its status is 0 where that went well: Linux before 5.8 doesn't tell it of bytes that were lost.
const PROGRAM: &[u8] = b"/bin/sync";

const ENVIRONMENT: &[u8] = b"AGENT=sendmail\0";

/// The most bytes of the program's path.
const LONGEST: usize = 255;

/// The most bytes of the words that the program gets, each with its NUL.
const WORDS: usize = 4400;

/// The program that syncs a whole file system, if there is one.
#[derive(Drop)]
pub struct Joint {
    program: ArrayVec<u8, LONGEST>,
}

impl Joint {
    /// None: files are synced one by one.
    pub fn none() -> Joint {
        Joint {
            program: ArrayVec::new(),
        }
    }

    /// The one at that path; none where the path is empty or longer than 255 bytes.
    pub fn at(path: &[u8]) -> Joint {
        let mut program = ArrayVec::new();
        // Too long a path leaves it empty.
        let _ = program.try_extend_from_slice(path);
        Joint { program }
    }

    /// The one that the environment names, or that of coreutils.
    pub fn of_environment() -> Joint {
        let mut value = [0u8; LONGEST];
        let length = os::env(SYNC, &mut value);
        if os::errno() == 0 {
            Joint::at(value.get(..length).unwrap_or(b""))
        } else {
            Joint::at(PROGRAM)
        }
    }

    /// Whether there is one.
    pub fn is_there(&self) -> bool {
        !self.program.is_empty()
    }

    /// Syncs the file system of that directory, and says whether that went well. Where the program
    /// can't do that, it is given up.
    pub fn sync(&mut self, dir: &[u8]) -> bool {
        let went = self.is_there() && ended(&self.program, dir) == Some(0);
        if !went {
            self.program.clear();
        }
        went
    }
}

// How the program ended over a directory, as waitpid tells it; `None` where it wasn't started.
fn ended(program: &[u8], dir: &[u8]) -> Option<i32> {
    let words = words_of(program, dir)?;
    let null = Descriptor::null().ok()?;
    let ends = [null.number(), null.number(), null.number()];
    match os::spawn(program, &words, ENVIRONMENT, b".", ends) {
        pid if pid > 0 => status_of(pid),
        _ => None,
    }
}

// The words of the program, each ended by a NUL; `None` where they are too long.
fn words_of(program: &[u8], dir: &[u8]) -> Option<ArrayVec<u8, WORDS>> {
    let mut words = ArrayVec::new();
    for word in [program, b"-f".as_slice(), dir] {
        words.try_extend_from_slice(word).ok()?;
        words.try_push(0).ok()?;
    }
    Some(words)
}

// Waits for a child to end, and gives what waitpid tells: 0 where it exited with 0.
fn status_of(pid: i32) -> Option<i32> {
    let mut status = 0;
    for _ in 0..u64::MAX {
        // No process has such a number.
        if pid <= 0 {
            break;
        }
        let found = unsafe { libc::waitpid(pid, &mut status, 0) };
        if found == pid {
            return Some(status);
        }
        if os::errno() != libc::EINTR {
            break;
        }
    }
    None
}
