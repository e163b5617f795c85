//! Moments of the system's clock in UTC, as logs and trails tell them (own profile).
#![tactic(auto)]

pub mod moment;
