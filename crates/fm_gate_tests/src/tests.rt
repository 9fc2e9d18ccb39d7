mod closes;
mod compared;
mod gates;
mod numbers;
mod pools;
mod races;
