// Granting, of any rule book; the cross-border rules, and which one is the first broken.
#![tactic(auto)]

mod family;
pub mod grant;
mod rule;
