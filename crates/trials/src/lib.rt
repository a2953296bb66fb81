//! Tests of sending, receiving, spelling and the laws, over the codes and layers there are.
#![tactic(auto)]

#[cfg(test)]
mod tests;
