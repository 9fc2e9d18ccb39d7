use crate::fold::Fold;
use crate::operator::Operator;
use crate::steps::Steps;
use std::marker::Model;

/// An item as a query's text writes it.
#[derive(Drop)]
pub enum ItemSyntax {
    /// `count`
    Count,
    /// `sum(PATH)`, `min(PATH)`, `max(PATH)` or `list(PATH)`
    Of(Fold, Steps),
}

/// A condition as a query's text writes it.
#[derive(Drop)]
pub struct ConditionSyntax {
    pub path: Steps,
    pub operator: Operator,
    pub literal: i64,
}

/// A query as its text writes it.
#[derive(Drop)]
pub struct QuerySyntax {
    pub items: Vec<ItemSyntax>,
    pub conditions: Vec<ConditionSyntax>,
}

impl Model for QuerySyntax {
    ghost use Rattle.fm_records_query.specs.Grammar.{Syntax, syntax};

    ghost Value = { Syntax };

    ghost view = { λ q. syntax q.items.items q.conditions.items };
}
