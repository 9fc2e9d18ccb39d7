mod printed;
mod rows;
