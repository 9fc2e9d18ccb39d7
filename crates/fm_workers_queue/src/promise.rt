/// What each job of a queue promises its taker. Who pushes it has to know it.
pub trait Promise<T> {
    ghost promises: { T → Type 0 };
}
