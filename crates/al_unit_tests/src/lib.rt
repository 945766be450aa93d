//! Tests, for the crates below sessions, of what no contract says: that calls succeed with ample
//! memory, and that definitions mean what the YAML specification and GitHub's pages say.
#![tactic(auto)]

#[cfg(test)]
mod declared;
#[cfg(test)]
mod documents;
#[cfg(test)]
mod files;
#[cfg(test)]
mod formats;
#[cfg(test)]
mod graphs;
#[cfg(test)]
mod interfaces;
#[cfg(test)]
mod longest_text;
#[cfg(test)]
mod rules;
#[cfg(test)]
mod scalars;
#[cfg(test)]
mod sets;
#[cfg(test)]
mod shown;
#[cfg(test)]
mod trees;
#[cfg(test)]
mod types;
