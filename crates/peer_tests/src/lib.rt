//! Tests of databases, of peers and networks of peers, of two peers with messages in transit, and of replications by
//! one thread or by several threads.
#![tactic(auto)]

#[cfg(test)]
mod tests;
