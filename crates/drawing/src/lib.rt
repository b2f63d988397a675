// Split orders, drawing by number, and printing.
#![tactic(auto)]

mod choosing;
mod counting;
mod descent;
pub mod drawing;
mod guard;
mod numbering;
pub mod order;
pub mod pending;
pub mod printing;
mod stack;
mod walking;
