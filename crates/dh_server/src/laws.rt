//! Laws of servers.

ghost use Rattle.dh_server.specs.Lives.{LifeLaw};

use crate::control::Control;

/// What the connections of a server ask of the desk is one run of calls. And what a caller gets from a server over its whole life
/// is the same with and without the commands on versions that he never sees: take a host, and a set of slugs without `latest` and
/// `stable`, of which the caller sees no version at any of his reads under the host. Leave out the commands on these slugs, the
/// commands on other hosts and all other reads, and what the first world holds of these slugs and of other hosts. Then each of his
/// reads has the same reply, in the same order.
pub fn life_law<K: Control>()
    ensures { LifeLaw K.does }
{}
