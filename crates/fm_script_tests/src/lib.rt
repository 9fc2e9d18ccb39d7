//! Tests of scripts: their texts, what their lines are answered, whole runs, and reports.
#![tactic(auto)]

#[cfg(test)]
mod tests;
