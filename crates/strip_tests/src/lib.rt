// Tests from outside: rows, find and locate over several arithmetics and both shufflers, every refusal, effects and whole trials.
#![tactic(auto)]

#[cfg(test)]
mod answers;
#[cfg(test)]
mod bent;
#[cfg(test)]
mod common;
#[cfg(test)]
mod effects;
#[cfg(test)]
mod refusals;
#[cfg(test)]
mod trials;
