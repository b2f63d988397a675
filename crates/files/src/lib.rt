// Family files: the refusals, the tokens, the reader of rules and files, drafts.
#![tactic(auto)]

pub mod draft;
pub mod fault;
pub mod grammar;
pub mod item;
pub mod lexer;
mod reader;
mod reading;
mod rules;
mod state;
mod steps;
mod text;
mod token;
