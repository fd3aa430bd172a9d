// A route's sections: their orders, what a train is granted on all of them, and its speed on each.
#![tactic(auto)]

pub mod grant;
pub mod section;
