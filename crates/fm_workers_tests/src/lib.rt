//! Tests alone: what queries answer over the records of a segment, by one caller and by a crew of passes.
#![tactic(auto)]

#[cfg(test)]
mod compared;
#[cfg(test)]
mod crews;
#[cfg(test)]
mod jobs;
#[cfg(test)]
mod joining;
#[cfg(test)]
mod layouts;
#[cfg(test)]
mod packed;
#[cfg(test)]
mod printed;
#[cfg(test)]
mod queue;
#[cfg(test)]
mod records;
