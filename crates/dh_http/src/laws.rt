//! What holds of all read requests. Each law is the contract of a function that does nothing.

ghost use Rattle.dh_http.specs.Headline.{SameProjectSameBytes, VeiledBytes};

/// For every read request, two worlds that show its caller the same project under the requested host give the same reply, byte for
/// byte.
pub fn same_project_same_bytes()
    ensures { SameProjectSameBytes }
{}

/// Other projects, and private versions that the caller's pass does not open, never change a reply: the reply is that of a
/// world without them.
pub fn veiled_bytes()
    ensures { VeiledBytes }
{}
