//! The properties that commands set of a version.
/// A property that a command sets of a version. To be inactive is no property here, since then the pages are removed too.
#[derive(Clone, Copy, Debug, PartialEq, Eq)]
pub enum Property {
    Active,
    Hidden,
    /// Not hidden.
    Shown,
    Public,
    Private,
}
