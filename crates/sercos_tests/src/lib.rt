//! Tests of the programs on worked examples, as tables of rows: words, input, status and output; of failing reads and writes, of links
//! handed in, and of the tables themselves.
#![tactic(auto)]

#[cfg(test)]
mod backups;
#[cfg(test)]
mod captures;
#[cfg(test)]
mod faults;
#[cfg(test)]
mod frames;
#[cfg(test)]
mod generated;
#[cfg(test)]
mod long;
#[cfg(test)]
mod plans;
#[cfg(test)]
mod refusals;
#[cfg(test)]
mod rings;
#[cfg(test)]
mod runs;
#[cfg(test)]
mod texts;
#[cfg(test)]
mod wrong;
