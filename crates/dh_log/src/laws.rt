//! What holds of all lines. Each law is the contract of a function that does nothing.

ghost use Rattle.dh_log.specs.Lines.{TextsAreVisible};

/// Each text is shown by visible ASCII alone: it has no space, which would end its word, no end of a line, and nothing that a
/// terminal reads.
pub fn texts_are_visible()
    ensures { TextsAreVisible }
{}
