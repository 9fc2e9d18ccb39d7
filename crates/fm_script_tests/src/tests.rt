mod compared;
mod lines;
mod parsed;
mod parsing;
mod plays;
mod reports;
mod written;
