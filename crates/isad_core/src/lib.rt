//! Descriptions and how they are printed: elements, levels, days, codes and texts, by ISAD(G).
#![tactic(auto)]

mod aid;
mod code;
mod day;
mod display;
mod element;
pub mod laws;
mod level;
pub mod limits;
mod list;
mod number;
mod page;
mod print;
mod text;
mod values;

pub use aid::aid_text;
pub use code::join_code;
pub use day::{Day, is_day};
pub use display::{Body, Page, Shown};
pub use element::Element;
pub use level::rank;
pub use list::List;
pub use number::Number;
pub use page::{list_text, page_text};
pub use print::one_line;
pub use text::{Text, is_blank};
pub use values::{BoxKey, LINE_ELEMENTS, Values};
