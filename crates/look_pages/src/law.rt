ghost use Rattle.look_pages.specs.Tables.{FieldsStand, RestIsZero, PageKeepsItsSize};
ghost use Rattle.look_pages.specs.Lists.{AreThoseOfRange, PageHasItsSize};

/// A law, with nothing to run: where a table's fields overlap nowhere and end within the page, each
/// field stands at its offset, every byte that no field covers is zero, and the page has its size.
pub fn page_shows_its_fields()
    ensures fields { FieldsStand }
    ensures rest { RestIsZero }
    ensures size { PageKeepsItsSize }
{}

/// A law, with nothing to run: the NSIDs that a page lists are those of 1 to n that pass, in rising
/// order, and the page of a list has its 4,096 bytes.
pub fn listed_nsids()
    ensures those { AreThoseOfRange }
    ensures size { PageHasItsSize }
{}
