//! The redirects of a list.

use dh_redirects::Redirect;
use dh_seen::Items;

/// The redirects of a list, in its order.
pub type Redirects = Items<Redirect>;
