//! Tests of `fp_hub` by scripts, for those who change it: one thread makes the calls of a script, a line each, and the
//! words that they answer are compared.
//!
//! No contract of `fp_hub` can say that each call of a hub makes the book's call of that name, since no clause names
//! what another thread may have changed. These tests show it. A test that fails names its script, and the first line
//! whose words are others. They are in a crate of their own so that `fp_hub` and `tests_hub` are proved once;
//! `tests_hub` has the messages, and the tests of links whose threads run freely.
//!
//! * `walks` has the scripts in `walks/each_call`, `walks/several` and `walks/waiting`, and the calls by what they are
//!   for.
#![tactic(auto)]

#[cfg(test)]
mod walks;
