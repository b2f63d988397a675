// Adopted families: adopting a draft, and what a family is asked for.
#![tactic(auto)]

pub mod adopting;
pub mod asking;
pub mod family;
mod marks;
mod relation;
