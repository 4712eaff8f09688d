// Tests of the strength checker from outside: published arrays whole and corrupted, the largest tables, strips, and every refusal.
// What is expected is by the definition, or told by the second program.
#![tactic(auto)]

#[cfg(test)]
mod common;
#[cfg(test)]
mod corrupted;
#[cfg(test)]
mod published;
#[cfg(test)]
mod refusals;
#[cfg(test)]
mod sizes;
#[cfg(test)]
mod strips;
