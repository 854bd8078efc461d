//! The tests of the machine of accepted sets, over no crate of the machine that tests everything.
//! Their vectors come from outside, and no clause of a contract says them.
#![tactic(auto)]

#[cfg(test)]
mod handles;
#[cfg(test)]
mod orders;
#[cfg(test)]
mod rows;
#[cfg(test)]
mod sets;
#[cfg(test)]
mod traces;
#[cfg(test)]
mod words;
