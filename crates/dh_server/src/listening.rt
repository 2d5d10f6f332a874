//! Where connections come from.

ghost use Rattle.std.specs.Prelude.{◌≡◌, ℕ, Option, Some};
ghost use Rattle.dh_server.specs.Serving as spec;
ghost use Rattle.dh_server.specs.Serving.{CountsExactly, messages_in, requests_in};

use crate::stream::{
    accept_message, accept_request, begins_as_post, comes_within, limited, pause, ready,
};
use std::io;
use std::net::{TcpListener, TcpStream};
use std::os::unix::net::{UnixListener, UnixStream};

/// How many accepts in a row may fail before none is answered; with their pauses they take a second.
const MOST_TRIES: u32 = 20;

/// A connection that came.
#[derive(Drop)]
pub enum Came {
    /// A connection to the port.
    Request(TcpStream),
    /// A connection to the control socket.
    Message(UnixStream),
}

impl Came {
    /// Whether the connection came to the control socket.
    fn is_message(&self) -> bool
        ensures { result ≡ spec.is_message self.now }
    {
        match self {
            Came::Message(_) => true,
            Came::Request(_) => false,
        }
    }
}

/// Where connections come from.
pub trait Listen {
    // How often a connection was asked for, where that is counted. A count stays at 2^64 - 1.
    ghost asked: { Self → Option ℕ };

    // How many connections came to the control socket, where that is counted. A count stays at 2^64 - 1.
    ghost messages: { Self → Option ℕ };

    /// Waits for the next connection. None where there was none to be had, or it was lost before it could be answered.
    fn accept(&mut self) -> Option<Came>
        ensures asks { CountsExactly (asked self.old) (asked self.new) 1 }
        ensures gives { CountsExactly (messages self.old) (messages self.new)
            (messages_in result) };

    /// Waits so many milliseconds at most for the next connection, and gives it where its request begins as a POST. Any other
    /// was not asked for: the next `accept` gives it.
    fn accept_post(&mut self, patience: i32) -> Option<TcpStream>
        ensures asks { CountsExactly (asked self.old) (asked self.new) (requests_in result) }
        ensures same { messages self.new ≡ messages self.old };
}

/// The connections that come in at a port, and at a control socket where there is one: from each in turn where both have some.
#[derive(Drop)]
pub struct Listening<'a> {
    port: &'a TcpListener,
    socket: Option<&'a UnixListener>,
    /// Whether the port was tried last.
    socket_first: bool,
    /// A connection that came and was not asked for yet.
    waiting: Option<Came>,
    asked: u64,
    messages: u64,
}

impl<'a> Listening<'a> {
    /// Takes connections from a port. None is asked for yet.
    pub fn new(port: &'a TcpListener) -> Listening<'a> {
        Listening {
            port,
            socket: None,
            socket_first: true,
            waiting: None,
            asked: 0,
            messages: 0,
        }
    }

    /// Takes connections from a port and a socket, whose accepts wait no more from then on. None is asked for yet.
    pub fn with_socket(
        port: &'a TcpListener,
        socket: &'a UnixListener,
    ) -> io::Result<Listening<'a>> {
        port.set_nonblocking(true)?;
        socket.set_nonblocking(true)?;
        Ok(Listening {
            port,
            socket: Some(socket),
            socket_first: true,
            waiting: None,
            asked: 0,
            messages: 0,
        })
    }

    /// Has this connection asked for before any other.
    pub fn put_back(&mut self, came: Option<Came>) {
        self.waiting = came;
    }

    /// Gives the connection that came and was not asked for.
    pub fn into_waiting(self) -> Option<Came> {
        self.waiting
    }

    /// Waits for a connection of the port or the socket, and accepts it: from the socket, unless the socket was tried last and
    /// the port has a connection, too.
    fn accept_either(&mut self, socket: &UnixListener) -> Option<Came>
        ensures asked { self.new.asked ≡ self.old.asked }
        ensures messages { self.new.messages ≡ self.old.messages }
    {
        let (has_request, has_message) = ready(self.port, socket);
        let is_message = has_message && (self.socket_first || !has_request);
        self.socket_first = !is_message;
        if is_message {
            accept_message(socket)
        } else {
            accept_request(self.port)
        }
    }

    /// Accepts one connection.
    fn accept_once(&mut self) -> Option<Came>
        ensures asked { self.new.asked ≡ self.old.asked }
        ensures messages { self.new.messages ≡ self.old.messages }
    {
        match self.socket {
            Some(socket) => self.accept_either(socket),
            None => accept_request(self.port),
        }
    }

    /// Gives the next connection. An accept that failed is tried again after a pause, for a second: the system may have been out
    /// of descriptors, and then each further accept fails at once.
    fn next_came(&mut self) -> Option<Came>
        ensures asked { self.new.asked ≡ self.old.asked }
        ensures messages { self.new.messages ≡ self.old.messages }
    {
        for _ in 0..MOST_TRIES {
            match self.accept_once() {
                Some(came) => return Some(came),
                None => pause(),
            }
        }
        None
    }

    /// Gives the next connection, which may have come already.
    fn next_waiting(&mut self) -> Option<Came>
        ensures asked { self.new.asked ≡ self.old.asked }
        ensures messages { self.new.messages ≡ self.old.messages }
    {
        match self.waiting.take() {
            Some(came) => Some(came),
            None => self.next_came(),
        }
    }

    /// Counts a connection that is asked for.
    fn count_one(&mut self)
        ensures counts { CountsExactly (Some self.old.asked) (Some self.new.asked) 1 }
        ensures messages { self.new.messages ≡ self.old.messages }
    {
        self.asked = self.asked.saturating_add(1);
    }

    /// Whether a connection waits, or comes within so many milliseconds.
    fn has_next(&self, patience: i32) -> bool {
        self.waiting.is_some() || comes_within(self.port, self.socket, patience)
    }
}

impl<'a> Listen for Listening<'a> {
    ghost asked = { λ listening. Some listening.asked };

    ghost messages = { λ listening. Some listening.messages };

    fn accept(&mut self) -> Option<Came> {
        self.count_one();
        let came = limited(self.next_waiting()?)?;
        if came.is_message() {
            self.messages = self.messages.saturating_add(1);
        }
        Some(came)
    }

    fn accept_post(&mut self, patience: i32) -> Option<TcpStream> {
        if !self.has_next(patience) {
            return None;
        }
        match self.next_waiting()? {
            Came::Request(stream) if begins_as_post(&stream) => {
                self.count_one();
                Some(stream)
            }
            other => {
                self.waiting = Some(other);
                None
            }
        }
    }
}
