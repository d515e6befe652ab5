// Examples of puts and takes, the same for both kinds of post.
#![tactic(auto)]

#[cfg(test)]
mod lender;
#[cfg(test)]
mod lent;
#[cfg(test)]
mod table;
