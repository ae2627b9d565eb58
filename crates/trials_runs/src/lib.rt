//! Tests of compiling, of access code, of runs and of loads.
#![tactic(auto)]

#[cfg(test)]
mod admissions;
#[cfg(test)]
mod codes;
#[cfg(test)]
mod loads;
#[cfg(test)]
mod runs;
#[cfg(test)]
mod setting;
