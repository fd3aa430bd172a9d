// The domestic book, RC A-B 7a no 1 (request Six): its rules, and what is decided by them.
#![tactic(auto)]

mod family;
pub mod grant;
mod rule;
