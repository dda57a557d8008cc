//! Examples of the parts: values, bytes, names and streams; disks in memory and over a folder; the log's
//! entries, files, replay and buffer, and nodes and their images; locks; the model's evaluation, the
//! catalog's records, and the texts that come in and go out. There are tests alone here, of the crates below
//! `je_program`. What has a variant for each kind of entry, call or plan is let go by `drop`, in one step
//! of a proof: where a scope ends with it there is one for each kind.
#![tactic(auto)]

#[cfg(test)]
mod arguments;
#[cfg(test)]
mod buffer;
#[cfg(test)]
mod bytes;
#[cfg(test)]
mod catalog_records;
#[cfg(test)]
mod checks;
#[cfg(test)]
mod cycles;
#[cfg(test)]
mod disks;
#[cfg(test)]
mod due;
#[cfg(test)]
mod durabilities;
#[cfg(test)]
mod entries;
#[cfg(test)]
mod files;
#[cfg(test)]
mod folder;
#[cfg(test)]
mod images;
#[cfg(test)]
mod indexed;
#[cfg(test)]
mod keys;
#[cfg(test)]
mod manager;
#[cfg(test)]
mod memory;
#[cfg(test)]
mod model;
#[cfg(test)]
mod modes;
#[cfg(test)]
mod names;
#[cfg(test)]
mod nodes;
#[cfg(test)]
mod record_ids;
#[cfg(test)]
mod recoveries;
#[cfg(test)]
mod reports;
#[cfg(test)]
mod rows;
#[cfg(test)]
mod samples;
#[cfg(test)]
mod scripts;
#[cfg(test)]
mod slots;
#[cfg(test)]
mod streams;
#[cfg(test)]
mod table;
#[cfg(test)]
mod uses;
#[cfg(test)]
mod values;
#[cfg(test)]
mod vectors;
