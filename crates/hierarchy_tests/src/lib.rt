//! The tests of either version: of the answers about places, and of tables of doubtful origin.
#![tactic(auto)]

#[cfg(test)]
mod catalogues;
#[cfg(test)]
mod changes;
#[cfg(test)]
mod links;
#[cfg(test)]
mod offices;
#[cfg(test)]
mod parents;
#[cfg(test)]
mod spans;
