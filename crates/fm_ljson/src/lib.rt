//! Layouts as JSON: what layout a text stands for.
//!
//! **The problem.** A text may break a rule anywhere, name a type that comes later, or stand for forty types of which
//! each has the one before it twice: written in a line, and too large to build.
//!
//! **The idea.** A layout is an object with the key `type`: a value's kind (`byte`, `boolean`, `char`, `short`, `int`
//! or `long`), `padding` with its `size`, `sequence` with `count` and `element`, or `struct` or `union` with `members`.
//! Each may have a `name`, a value its `order` (`little` or `big`), and all but padding an alignment, `align`, in
//! bytes. No other key is known.
//!
//! ```
//! {"type":"struct","members":[{"type":"int","name":"id"},{"type":"padding","size":4},{"type":"long","align":8}]}
//! ```
//!
//! A root with the key `version`, which is 2, names types and a layout that may refer to them:
//!
//! ```
//! {"version":2,"types":[{"define":"point","layout":{"type":"struct","members":[{"type":"int","name":"x"},{"type":"int","name":"y"}]}}],"layout":{"type":"struct","members":[{"type":"ref","of":"point","name":"from"},{"type":"ref","of":"point","name":"to"}]}}
//! ```
//!
//! A ref stands for an equal copy of the type that it names, which an earlier entry defines.
//!
//! **Why it is safe.** A text is gone through three times: its nodes are checked, what they stand for is measured, and
//! only then are types weighed, in place of being built, and a layout built. A text is refused whole at the first node
//! that breaks a rule; nodes are counted from 0, each before what stands in it. Then the constructors of `fm_layout` may
//! refuse what isn't well formed.
//!
//! **What is not promised.** That every text of JSON is read: values of more than 127 levels aren't. That a key which
//! stands twice is refused: the last one counts. That memory is there: a text is read into values first.
#![tactic(auto)]

mod build;
mod document;
mod footprint;
mod keys;
mod known;
mod measure;
mod node;
mod read;
mod refs;
mod role;
mod shape;
mod type_name;
mod types;
mod values;
mod weigh;

pub use measure::Extent;
pub use read::layout_from_json;
pub use type_name::TypeName;
