//! Tests of the layers below the top call, on worked examples that cross the crates.
#![tactic(auto)]

#[cfg(test)]
mod adapters;
#[cfg(test)]
mod backups;
#[cfg(test)]
mod blocks;
mod callers;
#[cfg(test)]
mod channels;
#[cfg(test)]
mod checks;
#[cfg(test)]
mod drives;
#[cfg(test)]
mod layers;
#[cfg(test)]
mod pieces;
#[cfg(test)]
mod station;
#[cfg(test)]
mod steps;
#[cfg(test)]
mod stores;
