//! What is wrong with a file as a log of SARIF 2.1.0, which editors and hosts of code show at the
//! place that it names: the rules with their texts, and a result for a refusal or a fault.
#![tactic(auto)]

mod building;
pub mod log;
mod message;
mod uri;
