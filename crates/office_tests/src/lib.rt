//! Tests of an office over its tables, by its own calls.
#![tactic(auto)]

#[cfg(test)]
mod adopted;
#[cfg(test)]
mod calls;
#[cfg(test)]
mod day_texts;
#[cfg(test)]
mod days;
#[cfg(test)]
mod each_call;
#[cfg(test)]
mod migrated_tables;
#[cfg(test)]
mod migration;
#[cfg(test)]
mod offices;
#[cfg(test)]
mod places;
#[cfg(test)]
mod rounds;
#[cfg(test)]
mod visits;
