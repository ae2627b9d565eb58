//! Tests of layouts, flat states, stores, activation, lists of elements, grids and images.
#![tactic(auto)]

#[cfg(test)]
mod fixtures;
#[cfg(test)]
mod flat;
#[cfg(test)]
mod layouts;
#[cfg(test)]
mod listed;
#[cfg(test)]
mod races;
#[cfg(test)]
mod recycling;
#[cfg(test)]
mod stories;
#[cfg(test)]
mod texts;
#[cfg(test)]
mod words;
#[cfg(test)]
mod workers;
