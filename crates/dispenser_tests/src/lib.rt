// Examples at both sides of each edge of the four dispensers. Expected tags are worked out from the rules.
#![tactic(auto)]

#[cfg(test)]
mod edges;
