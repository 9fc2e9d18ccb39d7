mod layouts;
mod refusals;
mod updates;
mod values;
