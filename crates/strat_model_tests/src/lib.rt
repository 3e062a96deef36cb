//! Worked examples of tables, which say whether the definitions mean what they should: the clauses say only
//! that a plain table follows them.
#![tactic(auto)]

#[cfg(test)]
mod tables;
