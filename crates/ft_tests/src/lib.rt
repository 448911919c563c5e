//! What no contract says, shown once: rows of what a call is given and its answer, and each call that can answer want of memory, with
//! memory enough.
#![tactic(auto)]

#[cfg(test)]
mod certificates;
#[cfg(test)]
mod containers;
#[cfg(test)]
mod eliminations;
#[cfg(test)]
mod formulas;
#[cfg(test)]
mod memories;
#[cfg(test)]
mod orders;
#[cfg(test)]
mod ports;
#[cfg(test)]
mod searches;
#[cfg(test)]
mod solutions;
#[cfg(test)]
mod texts;
#[cfg(test)]
mod timed;
