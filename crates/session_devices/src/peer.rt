// Peers' addresses.
ghost use Rattle.std.specs.Prelude.{◌≡◌, ◌≤◌, length, take};
ghost use Rattle.link_edge.specs.Turns.{IsPeer};

use arrayvec::ArrayString;
use mail_base::Failed;
use std::fmt;
use std::fmt::Write;
use std::net::{IpAddr, TcpStream};
use std::os::fd::AsFd;

/// The most bytes of a peer's address.
const LONGEST: usize = 64;

/// The address of the peer of a socket, or `None` where it is no socket of the internet. A socket
/// whose peer can't be told, as where it is gone, is a failure, since no address is taken for one
/// of this machine.
pub fn peer_of(socket: &impl AsFd) -> Result<Option<IpAddr>, Failed> {
    let copy = match socket.as_fd().try_clone_to_owned() {
        Ok(copy) => copy,
        Err(error) if error.raw_os_error() == Some(libc::EBADF) => return Ok(None),
        Err(_) => return Err(Failed),
    };
    match TcpStream::from(copy).peer_addr() {
        Ok(peer) => Ok(Some(peer.ip())),
        Err(error) => match error.raw_os_error() {
            None | Some(libc::ENOTSOCK) => Ok(None),
            Some(_) => Err(Failed),
        },
    }
}

/// Puts the address of a peer, where it has one, at the front of a buffer as the rules of a
/// configuration expect it: one of IPv4 as it is, also where it came as one of IPv6, and one of
/// IPv6 behind `IPv6:`.
pub fn put_peer(peer: Option<IpAddr>, buf: &mut [u8]) -> usize
    requires { 64 ≤ length buf.old }
    ensures room { length buf.new ≡ length buf.old }
    ensures within { result ≤ length buf.new }
    ensures peer { IsPeer (take result buf.new) }
{
    let Some(peer) = peer else {
        return 0;
    };
    match spell(peer.to_canonical()) {
        Ok(text) => put(text.as_bytes(), buf),
        Err(_) => 0,
    }
}

fn spell(peer: IpAddr) -> Result<ArrayString<LONGEST>, fmt::Error> {
    let mut text = ArrayString::new();
    match peer {
        IpAddr::V4(peer) => write!(text, "{peer}")?,
        IpAddr::V6(peer) => write!(text, "IPv6:{peer}")?,
    }
    Ok(text)
}

// Puts a text at the front of a buffer; none where it hasn't the form of an address.
fn put(peer: &[u8], buf: &mut [u8]) -> usize
    requires { 64 ≤ length buf.old }
    ensures room { length buf.new ≡ length buf.old }
    ensures within { result ≤ length buf.new }
    ensures peer { IsPeer (take result buf.new) }
{
    if peer.len() > LONGEST || peer.contains(&b'\n') {
        return 0;
    }
    buf[..peer.len()].copy_from_slice(peer);
    peer.len()
}
