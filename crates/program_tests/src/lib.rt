//! Tests of the program with what only a test can give it: streams that fail, ports where nobody comes.
#![tactic(auto)]

#[cfg(test)]
mod clients;
#[cfg(test)]
mod fakes;
#[cfg(test)]
mod office_messages;
#[cfg(test)]
mod streams;
#[cfg(test)]
mod tests;
pub mod worked;
