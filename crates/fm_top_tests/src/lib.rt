//! Tests of the tool over files and a sink of ours: of failing reads and writes, of guesses at files, of what it keeps, of who passes its
//! gate, and of words with an option. Each command's rows are in `examples/rows`.
#![tactic(auto)]

#[cfg(test)]
mod tests;
