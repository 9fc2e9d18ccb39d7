use fm_base::Refusal;
use fm_layout::Layout;
use std::alloc::{AllocError, Global};

/// The text, or one that no row wants where memory didn't suffice for it.
pub(crate) fn whole(alloc: Global, told: Result<String, AllocError>) -> String {
    match told {
        Ok(text) => text,
        Err(_) => String::new(alloc),
    }
}

/// How the refusal is printed.
pub(crate) fn refusal_told(alloc: Global, refusal: Refusal) -> String {
    whole(alloc, format!(in alloc; "{refusal}"))
}

/// What the layout is: its form, its size and alignment, and its name behind a dot.
pub(crate) fn layout_told(alloc: Global, layout: &Layout) -> String {
    let form = layout.form();
    let (size, alignment) = (layout.size(), layout.alignment());
    let name = layout.name().unwrap_or("");
    whole(
        alloc,
        format!(in alloc; "{form:?} {size} {alignment} .{name}"),
    )
}

/// What the layout is, or how the refusal is printed.
pub(crate) fn told(alloc: Global, made: Result<Layout, Refusal>) -> String {
    match made {
        Ok(layout) => layout_told(alloc, &layout),
        Err(refusal) => refusal_told(alloc, refusal),
    }
}
