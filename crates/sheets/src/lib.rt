// The request line and the sheets: all text that the programs print.
#![tactic(auto)]

mod asked;
pub mod layout_sheet;
pub mod lines;
mod request;
mod sheet;
mod stop;
pub mod total_sheet;
