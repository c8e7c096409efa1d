// Listens at an address, and what keeps one from being let in.
use std::io;
use std::net::{Net, TcpListener};

/// The errors of the system for want of descriptors, of all processes, and of room for a socket.
const ENFILE: i32 = 23;

const ENOBUFS: i32 = 105;

/// A listener; where all addresses are meant and there are none of IPv6, it listens at those of
/// IPv4.
pub fn listen(rt: &HostRuntime, address: &str, port: u16) -> io::Result<TcpListener> {
    if !address.is_empty() && address != "::" {
        return TcpListener::bind(rt, (address, port));
    }
    match TcpListener::bind(rt, ("::", port)) {
        Ok(listener) => Ok(listener),
        Err(error) if lacks_family(&error) => TcpListener::bind(rt, ("0.0.0.0", port)),
        Err(error) => Err(error),
    }
}

// Whether the machine has no addresses of that kind.
fn lacks_family(error: &io::Error) -> bool {
    matches!(
        error.raw_os_error(),
        Some(libc::EAFNOSUPPORT | libc::EADDRNOTAVAIL)
    )
}

/// Whether nobody can be let in any more.
pub fn is_over(error: &io::Error) -> bool {
    matches!(
        error.raw_os_error(),
        Some(libc::EBADF | libc::EINVAL | libc::ENOTSOCK)
    )
}

/// Whether nobody can be let in for a while, for want of descriptors or of memory.
pub fn lacks_room(error: &io::Error) -> bool {
    matches!(
        error.raw_os_error(),
        Some(libc::EMFILE | ENFILE | ENOBUFS | libc::ENOMEM)
    )
}
