//! Laws of lists.

ghost use Rattle.dh_listings.specs.Whole.{EachPageIsListed};

/// On the list of all that is seen of a project each page has its row that stands under a version and a language of the project, as
/// each does that a caller sees: no page is left out.
pub fn each_page_is_listed()
    ensures { EachPageIsListed }
{}
