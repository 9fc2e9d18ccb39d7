mod calls;
mod cut_off;
mod memories;
mod pools;
mod slices;
mod story;
mod texts;
