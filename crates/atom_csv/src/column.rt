//! The columns that are read, and the elements that they contain.
ghost use Rattle.std.specs.Prelude.{◌≡◌};
ghost use Rattle.atom_csv.specs.Columns.{columns_of, is_split, column_name};
ghost use Rattle.atom_csv.specs.Columns as spec;

use isad_core::Element;

/// A column of the file that is read. Other columns are ignored.
#[derive(Clone, Copy)]
pub enum Column {
    // What a row is, and where it belongs
    LegacyId,
    ParentId,
    QubitParentSlug,
    PublicationStatus,
    Culture,
    // Its containers
    PhysicalObjectName,
    PhysicalObjectLocation,
    PhysicalObjectType,
    // The elements, in the standard's order
    Identifier,
    Title,
    EventDates,
    LevelOfDescription,
    ExtentAndMedium,
    EventActors,
    EventActorHistories,
    ArchivalHistory,
    Acquisition,
    ScopeAndContent,
    Appraisal,
    Accruals,
    Arrangement,
    AccessConditions,
    ReproductionConditions,
    Language,
    Script,
    PhysicalCharacteristics,
    FindingAids,
    LocationOfOriginals,
    LocationOfCopies,
    RelatedUnitsOfDescription,
    PublicationNote,
    GeneralNote,
    ArchivistNote,
    Rules,
    RevisionHistory,
}

/// How many columns are read.
pub const COUNT: usize = 35;

impl Column {
    /// Every column that is read, in the order of the variants.
    #[tactic(auto, unfolding(crate::specs::Columns::columns))]
    pub fn all() -> [Column; COUNT]
        ensures { result ≡ spec.columns }
    {
        [
            Column::LegacyId,
            Column::ParentId,
            Column::QubitParentSlug,
            Column::PublicationStatus,
            Column::Culture,
            Column::PhysicalObjectName,
            Column::PhysicalObjectLocation,
            Column::PhysicalObjectType,
            Column::Identifier,
            Column::Title,
            Column::EventDates,
            Column::LevelOfDescription,
            Column::ExtentAndMedium,
            Column::EventActors,
            Column::EventActorHistories,
            Column::ArchivalHistory,
            Column::Acquisition,
            Column::ScopeAndContent,
            Column::Appraisal,
            Column::Accruals,
            Column::Arrangement,
            Column::AccessConditions,
            Column::ReproductionConditions,
            Column::Language,
            Column::Script,
            Column::PhysicalCharacteristics,
            Column::FindingAids,
            Column::LocationOfOriginals,
            Column::LocationOfCopies,
            Column::RelatedUnitsOfDescription,
            Column::PublicationNote,
            Column::GeneralNote,
            Column::ArchivistNote,
            Column::Rules,
            Column::RevisionHistory,
        ]
    }

    /// Its name in the header. Case matters.
    pub fn name(self) -> &'static str
        ensures { result.now ≡ column_name self }
    {
        match self {
            Column::LegacyId => "legacyId",
            Column::ParentId => "parentId",
            Column::QubitParentSlug => "qubitParentSlug",
            Column::PublicationStatus => "publicationStatus",
            Column::Culture => "culture",
            Column::PhysicalObjectName => "physicalObjectName",
            Column::PhysicalObjectLocation => "physicalObjectLocation",
            Column::PhysicalObjectType => "physicalObjectType",
            Column::Identifier => "identifier",
            Column::Title => "title",
            Column::EventDates => "eventDates",
            Column::LevelOfDescription => "levelOfDescription",
            Column::ExtentAndMedium => "extentAndMedium",
            Column::EventActors => "eventActors",
            Column::EventActorHistories => "eventActorHistories",
            Column::ArchivalHistory => "archivalHistory",
            Column::Acquisition => "acquisition",
            Column::ScopeAndContent => "scopeAndContent",
            Column::Appraisal => "appraisal",
            Column::Accruals => "accruals",
            Column::Arrangement => "arrangement",
            Column::AccessConditions => "accessConditions",
            Column::ReproductionConditions => "reproductionConditions",
            Column::Language => "language",
            Column::Script => "script",
            Column::PhysicalCharacteristics => "physicalCharacteristics",
            Column::FindingAids => "findingAids",
            Column::LocationOfOriginals => "locationOfOriginals",
            Column::LocationOfCopies => "locationOfCopies",
            Column::RelatedUnitsOfDescription => "relatedUnitsOfDescription",
            Column::PublicationNote => "publicationNote",
            Column::GeneralNote => "generalNote",
            Column::ArchivistNote => "archivistNote",
            Column::Rules => "rules",
            Column::RevisionHistory => "revisionHistory",
        }
    }

    /// Whether it may contain several entries, separated by bars. The other columns contain one text.
    pub fn is_split(self) -> bool
        ensures { result ≡ is_split self }
    {
        matches!(
            self,
            Column::EventDates
                | Column::EventActors
                | Column::EventActorHistories
                | Column::Language
                | Column::Script
                | Column::PhysicalObjectName
                | Column::PhysicalObjectLocation
                | Column::PhysicalObjectType
        )
    }
}

/// The columns of an element, in the order in which their entries are joined.
pub fn columns(element: Element) -> &'static [Column]
    ensures { result.now ≡ columns_of element }
{
    match element {
        Element::ReferenceCode => &[Column::Identifier],
        Element::Title => &[Column::Title],
        Element::Dates => &[Column::EventDates],
        Element::Level => &[Column::LevelOfDescription],
        Element::Extent => &[Column::ExtentAndMedium],
        Element::Creator => &[Column::EventActors],
        Element::CreatorHistory => &[Column::EventActorHistories],
        Element::ArchivalHistory => &[Column::ArchivalHistory],
        Element::Acquisition => &[Column::Acquisition],
        Element::Scope => &[Column::ScopeAndContent],
        Element::Appraisal => &[Column::Appraisal],
        Element::Accruals => &[Column::Accruals],
        Element::Arrangement => &[Column::Arrangement],
        Element::Access => &[Column::AccessConditions],
        Element::Reproduction => &[Column::ReproductionConditions],
        Element::Language => &[Column::Language, Column::Script],
        Element::Physical => &[Column::PhysicalCharacteristics],
        Element::FindingAids => &[Column::FindingAids],
        Element::Originals => &[Column::LocationOfOriginals],
        Element::Copies => &[Column::LocationOfCopies],
        Element::RelatedUnits => &[Column::RelatedUnitsOfDescription],
        Element::PublicationNote => &[Column::PublicationNote],
        Element::Note => &[Column::GeneralNote],
        Element::ArchivistsNote => &[Column::ArchivistNote],
        Element::Rules => &[Column::Rules],
        Element::DescriptionDates => &[Column::RevisionHistory],
    }
}
