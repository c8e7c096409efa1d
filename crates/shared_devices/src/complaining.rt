// A line on standard error that says what is wrong with a file or a directory.
use arrayvec::ArrayVec;
use libc::STDERR_FILENO;
use mail_base::Failed;

/// The most bytes of such a line: more than those of a path and of what an error means.
const LONGEST: usize = 4352;

/// The line of a file or a directory.
pub type Complaint = ArrayVec<u8, LONGEST>;

/// Says on standard error what is wrong with what is at this path. A line that would be longer than
/// 4,352 bytes isn't said.
pub fn complain(path: &[u8], why: &[u8]) {
    if let Ok(line) = complaint(path, why) {
        // Nobody can be told that standard error failed.
        let _ = os::write_no_sigpipe(STDERR_FILENO, &line);
    }
}

/// The line that says what is wrong with what is at this path. One that would be longer than 4,352
/// bytes is a failure. It takes no memory.
pub fn complaint(path: &[u8], why: &[u8]) -> Result<Complaint, Failed> {
    let mut line = Complaint::new();
    add(&mut line, b"sendmail: ")?;
    add(&mut line, path)?;
    add(&mut line, b": ")?;
    add(&mut line, why)?;
    add(&mut line, b"\n")?;
    Ok(line)
}

/// What an error of this number means, in the words of the C library, in the room that is lent.
pub fn meaning(error: i32, room: &mut [u8; 128]) -> &[u8] {
    let length = os::error_text(error, room);
    room.get(..length).unwrap_or_default()
}

fn add(line: &mut Complaint, bytes: &[u8]) -> Result<(), Failed> {
    line.try_extend_from_slice(bytes).map_err(|_| Failed)
}
