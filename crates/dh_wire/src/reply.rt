//! What is asked for, and the reply.

use dh_paths::{Bytes, Text};

/// What a GET or HEAD asks for under a host.
#[derive(Drop)]
pub struct Read {
    /// Percent-decoded, as `/en/latest/`.
    pub path: Text,
    /// As written, without the `?`.
    pub query: Option<Text>,
}

/// The methods that a 405 names.
#[derive(Clone, Copy, Debug, PartialEq, Eq, Drop)]
pub enum Allow {
    /// `GET, HEAD`
    Get,
    /// `POST`
    Post,
}

/// A reply, before it is written as bytes.
#[derive(Drop)]
pub struct Reply {
    pub status: u16,
    pub location: Option<Text>,
    pub allow: Option<Allow>,
    pub media: Option<Text>,
    pub body: Bytes,
}
