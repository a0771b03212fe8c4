//! Tests of the stations by their calls: a drive and a master that hand each other contents, the drives of a ring, and plans.
#![tactic(auto)]

#[cfg(test)]
mod plans;
#[cfg(test)]
mod stations;
