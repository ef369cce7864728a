//! What C calls of the reader and the measurer: `include/igvm.h`. No call takes memory or keeps a state.
#![tactic(auto)]

mod alike;
mod check;
mod digests;
mod fault;
mod file;
mod headers;
pub mod laws;
mod options;
mod pages;
mod platform;
mod platforms;
mod refusal;
mod rules;
#[cfg(test)]
mod tests;
mod texts;
