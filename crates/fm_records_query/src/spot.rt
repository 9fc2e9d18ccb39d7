ghost use Rattle.std.specs.Prelude.{◌≡◌, Some, IfOk};
ghost use Rattle.fm_records_query.specs.Reader.{start, reads, whole, IsReadySpot};

use crate::pushing::with_more;
use crate::stage::{Stage, Turn};
use crate::syntax::{ConditionSyntax, ItemSyntax, QuerySyntax};
use std::alloc::{AllocError, Global};
use std::marker::Model;

/// What has been read of a query's text: its whole items and conditions, and how far the next one.
#[derive(Drop)]
pub struct Spot {
    items: Vec<ItemSyntax>,
    conditions: Vec<ConditionSyntax>,
    stage: Stage,
}

impl Model for Spot {
    ghost use Rattle.fm_records_query.specs.Reader as reader;

    ghost Value = { reader.Spot };

    ghost view = { λ s. reader.spot s.items.items s.conditions.items s.stage };
}

impl Spot {
    /// Before the first byte. Takes no memory.
    pub fn start(alloc: Global) -> Spot
        ensures { Some result ≡ start }
    {
        Spot {
            items: Vec::new(alloc),
            conditions: Vec::new(alloc),
            stage: Stage::Start,
        }
    }

    /// Where a byte leads, if some query's text goes on so.
    pub fn take(self, alloc: Global, byte: u8) -> Result<Option<Spot>, AllocError>
        requires { IsReadySpot self }
        ensures { IfOk result (λ spot. spot ≡ reads self byte) }
    {
        let Spot {
            mut items,
            mut conditions,
            stage,
        } = self;
        let stage = match stage.next(alloc, items.len(), conditions.len(), byte)? {
            Turn::Dead => return Ok(None),
            Turn::Stay(stage) => stage,
            Turn::NextItem(item, stage) => {
                items = with_more(items, item)?;
                stage
            }
            Turn::NextCondition(condition, stage) => {
                conditions = with_more(conditions, condition)?;
                stage
            }
        };
        Ok(Some(Spot {
            items,
            conditions,
            stage,
        }))
    }

    /// The query that was read, if the text may end here.
    pub fn finish(self) -> Result<Option<QuerySyntax>, AllocError>
        requires { IsReadySpot self }
        ensures { IfOk result (λ query. query ≡ whole self) }
    {
        let Spot {
            mut items,
            mut conditions,
            stage,
        } = self;
        match stage {
            Stage::Behind(item, 0) => items = with_more(items, item)?,
            Stage::Literal(path, operator, number, 0) => {
                let literal = number.value();
                let condition = ConditionSyntax {
                    path,
                    operator,
                    literal,
                };
                conditions = with_more(conditions, condition)?;
            }
            _ => return Ok(None),
        }
        Ok(Some(QuerySyntax { items, conditions }))
    }
}
