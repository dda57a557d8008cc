//! Worked examples: the whole program over a disk, an input and an output in memory, with the report,
//! the status and the files that were worked out by hand, and runs in which the disk, the input or the
//! output fails. There are tests alone here. They stand on `je_program` and on the crates that its
//! parameters come from, and compare its answers with `store_eval`'s plain program.
#![tactic(auto)]

#[cfg(test)]
mod agreeing;
#[cfg(test)]
mod chain;
#[cfg(test)]
mod checkpoints;
#[cfg(test)]
mod checks;
#[cfg(test)]
mod crashes;
#[cfg(test)]
mod cursors;
#[cfg(test)]
mod databases;
#[cfg(test)]
mod dumps;
#[cfg(test)]
mod failing;
#[cfg(test)]
mod files;
#[cfg(test)]
mod fixture;
#[cfg(test)]
mod index_locks;
#[cfg(test)]
mod indexes;
#[cfg(test)]
mod loads;
#[cfg(test)]
mod log_lines;
#[cfg(test)]
mod phantoms;
#[cfg(test)]
mod range_phantoms;
#[cfg(test)]
mod reopened;
#[cfg(test)]
mod reports;
#[cfg(test)]
mod soaks;
#[cfg(test)]
mod splitting;
#[cfg(test)]
mod transactions;
#[cfg(test)]
mod uses;
