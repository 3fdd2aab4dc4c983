//! The calls of the machine that std has no word for, each in a function of its own.
ghost use Rattle.std.specs.Prelude.{◌≤◌, length, IfOk, IfSome};

use crate::device::DeviceFault;
use crate::limits::RECEIVE_ROOM;
use libc::net as c;
use libc::types::pollfd;
use os::FromRawFd;
use std::io::{Error, ErrorKind};
use std::net::{Net, SocketAddrV4, UdpSocket};
use std::os::fd::{AsRawFd, OwnedFd, RawFd};

/// Standard input.
pub const STDIN: RawFd = 0;

/// Standard output.
pub const STDOUT: RawFd = 1;

/// Standard error.
pub const STDERR: RawFd = 2;

/// No descriptor: `poll` passes it over.
pub const NO_DESCRIPTOR: RawFd = -1;

fn request(fd: RawFd, events: i16) -> pollfd {
    pollfd {
        fd,
        events,
        revents: 0,
    }
}

/// Waits until one of three descriptors can be read, has ended or has failed, for at most so many milliseconds.
pub fn wait_readable(first: RawFd, second: RawFd, third: RawFd, millis: i32) {
    let mut fds = [
        request(first, c::POLLIN),
        request(second, c::POLLIN),
        request(third, c::POLLIN),
    ];
    let _ = c::poll(&mut fds, millis);
}

/// Whether a descriptor can be read, has ended or has failed.
pub(crate) fn is_readable(fd: RawFd) -> bool {
    let mut fds = [request(fd, c::POLLIN)];
    c::poll(&mut fds, 0) > 0
}

/// Whether a descriptor takes octets now, or has failed.
fn is_ready(fd: RawFd) -> bool {
    let mut fds = [request(fd, c::POLLOUT)];
    c::poll(&mut fds, 0) > 0
}

/// Waits until a descriptor takes octets or refuses them at once, for at most so many milliseconds. Returns whether it does.
pub(crate) fn takes_octets(fd: RawFd, millis: i32) -> bool {
    let mut fds = [request(fd, c::POLLOUT)];
    c::poll(&mut fds, millis) > 0
}

/// Writes some of these octets to a descriptor, from the first on. Returns how many.
pub(crate) fn write_some(fd: RawFd, octets: &[u8]) -> Result<usize, ErrorKind>
    ensures { IfOk result (λ n. n ≤ length octets.now) }
{
    let count = libc::write(fd, octets);
    if count < 0 {
        return Err(last_fault());
    }
    Ok(count as usize)
}

fn last_fault() -> ErrorKind {
    Error::from_raw_os_error(os::errno()).kind()
}

fn result_of(status: i32) -> Result<(), ErrorKind> {
    if status < 0 {
        Err(last_fault())
    } else {
        Ok(())
    }
}

/// The octets of C's `sockaddr_in`, the first sixteen.
fn encode(address: SocketAddrV4) -> [u8; c::_SS_SIZE] {
    let mut raw = [0; c::_SS_SIZE];
    raw[..2].copy_from_slice(&(c::AF_INET as u16).to_ne_bytes());
    raw[2..4].copy_from_slice(&address.port().to_be_bytes());
    raw[4..8].copy_from_slice(&address.ip().octets());
    raw
}

/// A number as the value of a socket's option.
fn number_value(number: i32) -> [u8; 16] {
    let mut value = [0; 16];
    value[..4].copy_from_slice(&number.to_ne_bytes());
    value
}

/// A UDP socket at this address, which lets others have its port, with as much room for what waits as the machine gives.
pub fn bind_shared<R: Net>(_rt: &R, address: SocketAddrV4) -> Result<UdpSocket, ErrorKind> {
    let fd = unsafe {
        c::socket(
            c::AF_INET,
            c::SOCK_DGRAM | c::SOCK_CLOEXEC | c::SOCK_NONBLOCK,
            0,
        )
    };
    if fd < 0 {
        return Err(last_fault());
    }
    let owned = unsafe { OwnedFd::from_raw_fd(fd) };
    let on = number_value(1);
    let room = number_value(RECEIVE_ROOM);
    result_of(unsafe { c::setsockopt(owned.as_raw_fd(), c::SOL_SOCKET, c::SO_REUSEADDR, &on, 4) })?;
    result_of(unsafe { c::setsockopt(owned.as_raw_fd(), c::SOL_SOCKET, c::SO_REUSEPORT, &on, 4) })?;
    result_of(unsafe { c::setsockopt(owned.as_raw_fd(), c::SOL_SOCKET, c::SO_RCVBUF, &room, 4) })?;
    let raw = encode(address);
    result_of(unsafe { c::bind(owned.as_raw_fd(), &raw, 16) })?;
    Ok(UdpSocket::from(owned))
}

/// Asks for this much room for what waits to be sent by a socket, in octets.
pub(crate) fn set_send_room(socket: &UdpSocket, octets: i32) -> Result<(), ErrorKind> {
    let room = number_value(octets);
    result_of(unsafe { c::setsockopt(socket.as_raw_fd(), c::SOL_SOCKET, c::SO_SNDBUF, &room, 4) })
}

/// Sends a datagram, without waiting.
pub(crate) fn send_now(
    socket: &UdpSocket,
    datagram: &[u8],
    to: SocketAddrV4,
) -> Result<(), ErrorKind> {
    let raw = encode(to);
    let flags = c::MSG_NOSIGNAL | c::MSG_DONTWAIT;
    let sent = unsafe { c::sendto(socket.as_raw_fd(), datagram, flags, &raw, 16) };
    if sent < 0 { Err(last_fault()) } else { Ok(()) }
}

/// The room for what waits in a socket, in octets; the machine counts its own needs too, so it tells twice what it
/// was asked for.
pub fn room_of(socket: &UdpSocket) -> Option<u32> {
    let mut value = [0; 16];
    let mut len = 4;
    let status = unsafe {
        c::getsockopt(
            socket.as_raw_fd(),
            c::SOL_SOCKET,
            c::SO_RCVBUF,
            &mut value,
            &mut len,
        )
    };
    if status < 0 {
        return None;
    }
    Some(u32::from_ne_bytes([value[0], value[1], value[2], value[3]]))
}

/// Sees to it that no file or socket that is opened later gets the number of standard input, output or error, where one of
/// these was closed from the start: the number then stands for the empty device, open for reading alone.
pub fn guard_standard_descriptors() {
    for _ in 0..3 {
        let fd = os::open_read(b"/dev/null");
        if fd > 2 {
            let _ = libc::close(fd);
        }
        if fd < 0 || fd > 2 {
            return;
        }
    }
}

/// Whether a descriptor is a terminal.
pub fn is_terminal(fd: RawFd) -> bool {
    libc::isatty(fd) == 1
}

/// Whether standard output is a terminal.
pub fn output_is_terminal() -> bool {
    is_terminal(STDOUT)
}

/// C's numbers of faults that its library in the kit doesn't name.
const ENXIO: i32 = 6;

const ENODEV: i32 = 19;

const ENFILE: i32 = 23;

/// The fault of the latest call on a device file.
fn last_device_fault() -> DeviceFault {
    let error = os::errno();
    if error == libc::EIO || error == ENXIO || error == ENODEV {
        DeviceFault::Unplugged
    } else if error == libc::EMFILE || error == ENFILE {
        DeviceFault::NoDescriptor
    } else {
        DeviceFault::Other(Error::from_raw_os_error(error).kind())
    }
}

/// A device file that is there, for reading and writing. No write to it waits.
pub(crate) fn open_device(path: &str) -> Result<OwnedFd, DeviceFault> {
    let fd = os::open_update(path.as_bytes());
    if fd < 0 {
        return Err(last_device_fault());
    }
    let file = unsafe { OwnedFd::from_raw_fd(fd) };
    if os::set_nonblocking(fd, true) < 0 {
        return Err(last_device_fault());
    }
    Ok(file)
}

/// Writes to a device as many octets as it takes now, and returns how many.
pub(crate) fn write_device(file: &OwnedFd, octets: &[u8]) -> Result<usize, DeviceFault> {
    if !is_ready(file.as_raw_fd()) {
        return Ok(0);
    }
    let count = libc::write(file.as_raw_fd(), octets);
    if count >= 0 {
        return Ok(count as usize);
    }
    let error = os::errno();
    if error == libc::EAGAIN || error == libc::EINTR {
        return Ok(0);
    }
    Err(last_device_fault())
}

/// What a link leads to, as many octets as the buffer holds. Returns how many, or None where it can't be read.
pub(crate) fn read_link(path: &[u8], buffer: &mut [u8]) -> Option<usize>
    ensures { IfSome result (λ n. n ≤ length buffer.new) }
{
    let count = os::readlink(path, buffer);
    if count < 0 {
        None
    } else {
        Some(count as usize)
    }
}

/// The most reads of a file's start.
const MAX_READS: usize = 64;

/// The octets of a file from its start, as many as the buffer holds. Returns how many, or None where it can't be opened.
pub(crate) fn read_start(path: &[u8], buffer: &mut [u8]) -> Option<usize>
    ensures { IfSome result (λ n. n ≤ length buffer.new) }
{
    let fd = os::open_read(path);
    if fd < 0 {
        return None;
    }
    let file = unsafe { OwnedFd::from_raw_fd(fd) };
    let mut filled = 0;
    for _ in 0..MAX_READS {
        let count = libc::read(file.as_raw_fd(), &mut buffer[filled..]);
        if count <= 0 {
            return Some(filled);
        }
        filled += count as usize;
    }
    Some(filled)
}

/// Octets of standard input, 0 at its end; None where it fails.
pub fn read_input(buffer: &mut [u8]) -> Option<usize>
    ensures { IfSome result (λ n. n ≤ length buffer.new) }
{
    let count = libc::read(STDIN, buffer);
    if count < 0 {
        None
    } else {
        Some(count as usize)
    }
}
