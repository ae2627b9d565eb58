//! Tests of words, coordinates, the outside, lists, pools, tables of keys and passes: what no contract says.
#![tactic(auto)]

#[cfg(test)]
mod accum;
#[cfg(test)]
mod coordinates;
#[cfg(test)]
mod dynamic;
#[cfg(test)]
mod gates;
#[cfg(test)]
mod hash;
#[cfg(test)]
mod links;
#[cfg(test)]
mod mask;
#[cfg(test)]
mod outside;
#[cfg(test)]
mod pointer;
#[cfg(test)]
mod pool;
#[cfg(test)]
mod words;
