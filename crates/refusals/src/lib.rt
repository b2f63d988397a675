// One case or more of each refusal, and what the calls leave behind.
#![tactic(auto)]

#[cfg(test)]
mod printed;
#[cfg(test)]
mod reading;
#[cfg(test)]
mod sequences;
#[cfg(test)]
mod support;
#[cfg(test)]
mod tables_and_drawing;
