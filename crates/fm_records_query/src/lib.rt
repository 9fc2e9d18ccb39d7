//! Queries over records: their texts, and what they ask of a record's values.
#![tactic(auto)]

mod condition;
mod fold;
mod item;
mod laws;
mod list;
mod number;
mod operator;
mod parse;
mod printing;
mod pushing;
mod query;
mod record;
mod resolving;
mod spot;
mod stage;
mod steps;
mod syntax;
mod word;

pub use condition::Condition;
pub use fm_base_text::Text;
pub use fold::Fold;
pub use item::{Asked, Item};
pub use laws::{
    layouts_have_one_refusal, refused_texts_have_no_plan, texts_have_one_plan,
    texts_have_one_refusal,
};
pub use list::parse_list;
pub use operator::Operator;
pub use parse::parse_query;
pub use query::Query;
pub use record::check_record;
