mod compared;
mod files;
mod host;
mod signals;
mod sinks;
