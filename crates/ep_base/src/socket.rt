//! Sockets: families, names, and which directions are shut.

/// What a socket speaks.
#[derive(Clone, Copy, Debug, PartialEq, Eq)]
pub enum Family {
    /// A byte stream over TCP on the loopback, by port.
    Tcp,
    /// A Unix stream socket.
    Unix,
}

/// Where names are numbers of their own.
#[derive(Clone, Copy, Debug, PartialEq, Eq)]
pub enum Space {
    /// Ports of IPv4, of TCP sockets.
    V4,
    /// Ports of IPv6, of TCP sockets.
    V6,
    /// Names of Unix sockets: a number for each text, which the driver gives.
    Local,
}

/// A name that a socket is bound to.
#[derive(Clone, Copy, Debug, PartialEq, Eq)]
pub struct Name {
    /// Where it is a name.
    pub space: Space,
    /// A port, or the driver's number of a text. 0 asks bind(2) for a free one.
    pub number: u32,
}

/// Who hears a connect(2) by a name.
#[derive(Clone, Copy, Debug, PartialEq, Eq)]
pub enum Hearing {
    /// Nobody listens at the name.
    Nobody,
    /// A socket listens there, and as many connections wait at it as may.
    Full,
    /// A socket listens there, and one more connection may wait at it.
    Somebody,
}

/// What shutdown(2) shuts.
#[derive(Clone, Copy, Debug, PartialEq, Eq)]
pub enum How {
    /// SHUT_RD.
    Read,
    /// SHUT_WR.
    Write,
    /// SHUT_RDWR.
    Both,
}
