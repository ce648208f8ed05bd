//! The worked rows of the program: whole commands over a store and a sink in memory.
#![tactic(auto)]

#[cfg(test)]
mod batch;
#[cfg(test)]
mod check;
#[cfg(test)]
mod commands;
#[cfg(test)]
mod decrypt;
#[cfg(test)]
mod files;
#[cfg(test)]
mod keys;
#[cfg(test)]
mod reports;
#[cfg(test)]
mod runs;
#[cfg(test)]
mod switch_keys;
#[cfg(test)]
mod words;
