//! Who asks, and under which host.

ghost use Rattle.std.specs.Prelude.{◌≡◌, ℕ, option_map};
ghost use Rattle.dh_world.specs.Reads.{caller_named, host_named};

use dh_texts::{Bytes, HostName};

/// The name of the host; the empty text, which is no host's name, where there is none.
pub fn host_text(host: &Option<HostName>) -> &str
    ensures { host_named result.now ≡ host.now }
{
    match host {
        Some(host) => host.as_str(),
        None => "",
    }
}

/// The pass, where its bytes are a text; any other bytes are no pass.
pub fn pass_text(pass: &Option<Bytes>) -> Option<&str>
    ensures { (moment : ℕ) → caller_named (option_map (λ text. text.now) result) moment
        ≡ caller_named pass.now moment }
{
    match pass {
        Some(pass) => str::from_utf8(pass.as_slice()).ok(),
        None => None,
    }
}
