//! What is shown of a unit.

use crate::day::Day;
use crate::element::Element;
use crate::list::List;
use crate::text::Text;

/// A unit as a finding aid shows it.
#[derive(Debug, PartialEq, Drop)]
pub struct Shown {
    /// The number of units above it in what is printed.
    pub depth: u32,
    /// Its reference code, such as `GB 0999 HUL/1`.
    pub code: Text,
    /// Its level, or a blank text.
    pub level: Text,
    /// Its title, or a blank text.
    pub title: Text,
    pub body: Body,
}

/// What is printed below a unit's head line.
#[derive(Debug, PartialEq, Drop)]
pub enum Body {
    /// Its elements in the standard's order, and the number and the name of each container.
    Full {
        lines: List<(Element, Text)>,
        boxes: List<(u64, Text)>,
    },
    /// Nothing: the unit is closed until this day.
    Closed(Day),
}

/// The page of one unit. A value that was found above comes with the code of the unit that has it. If the unit is
/// closed, the three lists are empty.
#[derive(Debug, PartialEq, Drop)]
pub struct Page {
    pub head: Shown,
    pub lines: List<(Element, Text, Option<Text>)>,
    /// The number and the name of each container that the unit lies in.
    pub boxes: List<(u64, Text, Option<Text>)>,
    /// The number of each unit right below. Only its head line is printed.
    pub below: List<(u64, Shown)>,
}
