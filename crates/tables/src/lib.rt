// Weight kinds, tables of totals and open tables.
#![tactic(auto)]

pub mod cheapest;
mod checked;
pub mod count;
pub mod filling;
pub mod kind;
mod level;
pub mod meanings;
pub mod open_table;
mod opening;
pub mod scratch;
pub mod shape;
mod shaping;
pub mod tail;
