mod gates;
mod groups;
mod pools;
