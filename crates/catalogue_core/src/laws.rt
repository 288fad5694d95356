//! Laws of the definitions, each stated as the contract of a function that does nothing.

ghost use Rattle.catalogue_core.specs.OpenMarks.{OpenByMarks, MarksSayClean, NumbersTellNothing};
ghost use Rattle.catalogue_core.specs.OneRule.{TellsWhatIsOpen, StubsWhatIsClosed};
ghost use Rattle.catalogue_core.specs.OneRule.{PagesTellTheHousing, NumbersArePlaces};
ghost use Rattle.catalogue_core.specs.NearestValues.{LinesAreNearest};
ghost use Rattle.catalogue_core.specs.PublicationLaws.{PublishedInPublic, PublicIsPublished};

/// A container is open to a reader exactly if some unit names it, and each unit that names it is clean by its marks,
/// with the reader's permits. That is so exactly if `clean_path` and `clean_contents` return true for it, and the
/// numbers of the marks do not matter. No two units may have the same number. The public has no permits.
pub fn open_by_marks()
    ensures open { OpenByMarks }
    ensures clean { MarksSayClean }
    ensures numbers { NumbersTellNothing }
{}

/// The public is shown in full exactly those units that are not withheld from a reader without permits, and stubs of
/// exactly those units that only their own closure withholds, in walk order.
pub fn told_where_not_withheld()
    ensures told { TellsWhatIsOpen }
    ensures stubs { StubsWhatIsClosed }
{}

/// The page of a unit that is not withheld from the public has exactly the containers that the unit lies in, in their
/// order: those by which it is decided whether a container is open. No two units may have the same number.
pub fn pages_tell_the_housing()
    ensures { PagesTellTheHousing }
{}

/// The printed number of a container is its place among the containers, from 1, if no container occurs twice there.
pub fn numbers_are_places()
    ensures { NumbersArePlaces }
{}

/// Each line of a page has the value of the nearest unit that has one, going up from the page's own unit. A value of a
/// unit above is shown with the code of that unit, and only for an element that is found above.
pub fn values_are_of_the_nearest()
    ensures { LinesAreNearest }
{}

/// What is published of a unit, by the drafts and closures on its path, is exactly what the forest that the public may
/// know contains.
pub fn the_published_stands_in_public()
    ensures published { PublishedInPublic }
    ensures public { PublicIsPublished }
{}
