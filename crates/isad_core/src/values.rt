//! The values of a unit's description, and its containers.
ghost use Rattle.std.specs.Prelude.{◌≡◌, ◌<◌, ◌++◌, IfOk, IfSome, OnOk, option_copied, option_to_list};
ghost use Rattle.isad_core.specs.Values.{element_line, lines_among, own_lines, text_place, text_of};

use crate::element::Element;
use crate::list::List;
use crate::text::Text;
use std::alloc::{AllocError, Global};

/// What identifies a container: the text written on it, its location, and its kind.
#[derive(Debug, PartialEq, Eq, PartialOrd, Ord, Drop)]
pub struct BoxKey {
    /// The text that is written on it. In a row of a file, a blank text names no container.
    pub name: Text,
    /// Its location, or the empty text.
    pub location: Text,
    /// Its kind, or the empty text.
    pub kind: Text,
}

/// The values of a unit's description (ISAD(G) 3.1 to 3.7).
#[derive(Debug, PartialEq, Drop)]
pub struct Values {
    /// The level of description, which may be empty.
    pub level: Text,
    /// The texts of the 25 other elements in the standard's order, none of them blank.
    pub texts: [Option<Text>; 25],
    /// The unit's containers, in the unit's order, each once.
    pub boxes: List<BoxKey>,
}

/// The elements that have a line of their own, in the standard's order. Code, title and level are in the head line.
pub const LINE_ELEMENTS: [Element; 23] = [
    Element::Dates,
    Element::Extent,
    Element::Creator,
    Element::CreatorHistory,
    Element::ArchivalHistory,
    Element::Acquisition,
    Element::Scope,
    Element::Appraisal,
    Element::Accruals,
    Element::Arrangement,
    Element::Access,
    Element::Reproduction,
    Element::Language,
    Element::Physical,
    Element::FindingAids,
    Element::Originals,
    Element::Copies,
    Element::RelatedUnits,
    Element::PublicationNote,
    Element::Note,
    Element::ArchivistsNote,
    Element::Rules,
    Element::DescriptionDates,
];

impl Values {
    /// The text of an element, or none if the unit has none. For the level it is always none.
    pub fn text(&self, element: Element) -> Option<&Text>
        ensures { option_copied result ≡ text_of element self.now }
    {
        let place = place_of(element)?;
        self.texts[place].as_ref()
    }

    /// The elements that the unit has a text for and that have a line of their own, in the standard's order, each with
    /// its text.
    pub fn lines(&self, alloc: Global) -> Result<List<(Element, Text)>, AllocError>
        ensures { IfOk result (λ lines. lines ≡ own_lines self.now) }
    {
        self.lines_among(alloc, LINE_ELEMENTS.as_slice())
    }

    /// The elements among these that the unit has, each with its text.
    fn lines_among(
        &self,
        alloc: Global,
        elements: &[Element],
    ) -> Result<List<(Element, Text)>, AllocError>
        ensures { IfOk result (λ lines. lines ≡ lines_among elements.now self.now) }
    {
        let mut lines = List::new(alloc);
        for element in elements {
            push_line(&mut lines, self, *element)?;
        }
        Ok(lines)
    }
}

/// Adds the line of an element, if the unit has it.
fn push_line(
    lines: &mut List<(Element, Text)>,
    values: &Values,
    element: Element,
) -> Result<(), AllocError>
    ensures { OnOk result (lines.new ≡ lines.old ++ option_to_list (element_line values.now element)) }
{
    match values.text(element) {
        None => Ok(()),
        Some(text) => lines.push((element, text.clone()?)),
    }
}

/// The place of an element's text among the texts of `Values`.
fn place_of(element: Element) -> Option<usize>
    ensures place { result ≡ text_place element }
    ensures bound { IfSome result (λ i. i < 25) }
{
    match element {
        Element::Level => None,
        Element::ReferenceCode | Element::Title | Element::Dates => Some(element as usize),
        _ => Some(element as usize - 1),
    }
}
