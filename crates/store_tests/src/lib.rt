//! The tests of the two stores over one set of tables, and of the disk in memory.
#![tactic(auto)]

#[cfg(test)]
mod checks;
#[cfg(test)]
mod desk;
#[cfg(test)]
mod mark_lines;
#[cfg(test)]
mod memory_disks;
#[cfg(test)]
mod reading_room;
#[cfg(test)]
mod refusals;
#[cfg(test)]
mod tests;
