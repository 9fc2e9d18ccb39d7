//! Tests alone: files and sinks in memory, those of the host, and what fills a buffer or writes a text.
#![tactic(auto)]

#[cfg(test)]
mod tests;
