//! Calls public functions of the nine public crates, each by its name and with its parameters in
//! order. Depends on these crates alone. The modules `example_*` begin with the examples of the
//! crates' first pages.
#![tactic(auto)]

#[cfg(test)]
mod builders;
#[cfg(test)]
mod bytes;
#[cfg(test)]
mod example_check;
#[cfg(test)]
mod example_cli;
#[cfg(test)]
mod example_expr;
#[cfg(test)]
mod example_rules;
#[cfg(test)]
mod example_scalar;
#[cfg(test)]
mod example_session;
#[cfg(test)]
mod example_text;
#[cfg(test)]
mod example_tree;
#[cfg(test)]
mod example_yaml;
#[cfg(test)]
mod expressions;
#[cfg(test)]
mod faults;
#[cfg(test)]
mod files;
#[cfg(test)]
mod linters;
#[cfg(test)]
mod names;
#[cfg(test)]
mod places;
#[cfg(test)]
mod programs;
#[cfg(test)]
mod sessions;
#[cfg(test)]
mod syntax;
#[cfg(test)]
mod texts;
#[cfg(test)]
mod trees;
#[cfg(test)]
mod values;
#[cfg(test)]
mod yaml;
