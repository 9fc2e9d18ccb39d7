mod calls;
mod closed;
mod rows;
