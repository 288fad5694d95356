//! The elements of a description (ISAD(G), second edition, 3.1 to 3.7).
ghost use Rattle.std.specs.Prelude.{◌≡◌};
ghost use Rattle.isad_core.specs.Elements.{is_found_above, element_name, standard_number};

/// An element of description, in the standard's order.
#[derive(Debug, Clone, Copy, PartialEq, Eq)]
pub enum Element {
    // 3.1 Identity statement area
    ReferenceCode,
    Title,
    Dates,
    Level,
    Extent,
    // 3.2 Context area
    Creator,
    CreatorHistory,
    ArchivalHistory,
    Acquisition,
    // 3.3 Content and structure area
    Scope,
    Appraisal,
    Accruals,
    Arrangement,
    // 3.4 Conditions of access and use area
    Access,
    Reproduction,
    Language,
    Physical,
    FindingAids,
    // 3.5 Allied materials area
    Originals,
    Copies,
    RelatedUnits,
    PublicationNote,
    // 3.6 Notes area
    Note,
    // 3.7 Description control area
    ArchivistsNote,
    Rules,
    DescriptionDates,
}

impl Element {
    /// Its number in the standard, such as `3.1.2`.
    pub fn number(self) -> &'static str
        ensures { result.now ≡ standard_number self }
    {
        match self {
            Element::ReferenceCode => "3.1.1",
            Element::Title => "3.1.2",
            Element::Dates => "3.1.3",
            Element::Level => "3.1.4",
            Element::Extent => "3.1.5",
            Element::Creator => "3.2.1",
            Element::CreatorHistory => "3.2.2",
            Element::ArchivalHistory => "3.2.3",
            Element::Acquisition => "3.2.4",
            Element::Scope => "3.3.1",
            Element::Appraisal => "3.3.2",
            Element::Accruals => "3.3.3",
            Element::Arrangement => "3.3.4",
            Element::Access => "3.4.1",
            Element::Reproduction => "3.4.2",
            Element::Language => "3.4.3",
            Element::Physical => "3.4.4",
            Element::FindingAids => "3.4.5",
            Element::Originals => "3.5.1",
            Element::Copies => "3.5.2",
            Element::RelatedUnits => "3.5.3",
            Element::PublicationNote => "3.5.4",
            Element::Note => "3.6.1",
            Element::ArchivistsNote => "3.7.1",
            Element::Rules => "3.7.2",
            Element::DescriptionDates => "3.7.3",
        }
    }

    /// Its name in the standard.
    pub fn name(self) -> &'static str
        ensures { result.now ≡ element_name self }
    {
        match self {
            Element::ReferenceCode => "Reference code(s)",
            Element::Title => "Title",
            Element::Dates => "Date(s)",
            Element::Level => "Level of description",
            Element::Extent => "Extent and medium of the unit of description",
            Element::Creator => "Name of creator(s)",
            Element::CreatorHistory => "Administrative / Biographical history",
            Element::ArchivalHistory => "Archival history",
            Element::Acquisition => "Immediate source of acquisition or transfer",
            Element::Scope => "Scope and content",
            Element::Appraisal => "Appraisal, destruction and scheduling information",
            Element::Accruals => "Accruals",
            Element::Arrangement => "System of arrangement",
            Element::Access => "Conditions governing access",
            Element::Reproduction => "Conditions governing reproduction",
            Element::Language => "Language/scripts of material",
            Element::Physical => "Physical characteristics and technical requirements",
            Element::FindingAids => "Finding aids",
            Element::Originals => "Existence and location of originals",
            Element::Copies => "Existence and location of copies",
            Element::RelatedUnits => "Related units of description",
            Element::PublicationNote => "Publication note",
            Element::Note => "Note",
            Element::ArchivistsNote => "Archivist's Note",
            Element::Rules => "Rules or Conventions",
            Element::DescriptionDates => "Date(s) of descriptions",
        }
    }

    /// Whether a unit that lacks it takes it from the nearest unit above that has it. What is common to the parts is
    /// given once, at the highest level that it fits (ISAD(G) 2.4).
    pub fn found_above(self) -> bool
        ensures { result ≡ is_found_above self }
    {
        matches!(
            self,
            Element::Creator
                | Element::CreatorHistory
                | Element::ArchivalHistory
                | Element::Acquisition
                | Element::Access
                | Element::Reproduction
                | Element::Language
                | Element::Rules
        )
    }
}
