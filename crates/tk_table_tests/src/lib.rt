//! Tests of the table, by the public calls of `tk_table`.
#![tactic(auto)]

#[cfg(test)]
mod beside_tests;
#[cfg(test)]
mod law_tests;
#[cfg(test)]
mod plain_table;
#[cfg(test)]
mod pressure;
#[cfg(test)]
mod table_tests;
