//! The tests of images, lines, runs, exact hunts, cores, intakes and workers, by their own calls:
//! their vectors come from outside, and no clause of a contract says them. What they share with the
//! tests of the program is public.
#![tactic(auto)]

pub mod crossing;
#[cfg(test)]
mod hunts;
#[cfg(test)]
mod images;
#[cfg(test)]
mod lines;
pub mod pace;
#[cfg(test)]
mod queues;
#[cfg(test)]
mod rings;
#[cfg(test)]
mod runs;
#[cfg(test)]
mod served;
#[cfg(test)]
mod serving;
#[cfg(test)]
mod sets;
#[cfg(test)]
mod shown;
#[cfg(test)]
mod waiting;
