mod compared;
mod pages;
mod rule;
mod words;
