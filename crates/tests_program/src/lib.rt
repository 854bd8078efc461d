//! The tests of what the program and the library for C answer: verdicts, lists, images and runs over
//! devices that fail, scripts that several workers serve, and answers in memory. Their vectors come
//! from outside, and no clause of a contract says them.
#![tactic(auto)]

#[cfg(test)]
mod beginnings;
#[cfg(test)]
mod case;
#[cfg(test)]
mod devices;
#[cfg(test)]
mod failures;
#[cfg(test)]
mod histories;
#[cfg(test)]
mod hosted;
#[cfg(test)]
mod in_memory;
#[cfg(test)]
mod limits;
#[cfg(test)]
mod overlap;
#[cfg(test)]
mod readers;
#[cfg(test)]
mod rings;
#[cfg(test)]
mod rule_pages;
#[cfg(test)]
mod scripts;
#[cfg(test)]
mod sizes;
