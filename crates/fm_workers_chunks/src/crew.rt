use crate::desk::{Desk, Server};
use crate::taking::serve_chunks;
use crate::terms::Terms;
use fm_arena::Shared;
use fm_io::{AtGate, Gate};
use fm_workers_crew::Work;
use std::alloc::Global;
use std::sync::Wait;

/// What each pass of a crew does: it serves chunks, each at a call of its own at the gate.
pub struct Serving<'a, R, G, K: Terms> {
    pub rt: &'a R,
    pub gate: &'a G,
    pub desk: Desk<'a, K>,
}

impl<'a, R: Wait + Sync, G: Gate, K: Terms + Sync> Work<Server> for Serving<'a, R, G, K> {
    ghost use Rattle.fm_workers_crew.specs.Crew.{by_caller};
    ghost use Rattle.fm_workers_chunks.specs.Taking.{IsAtDesk, IsOnTerms, ServesAll, on_terms_later};

    ghost can = { λ w v server. IsOnTerms K.home K.limit K.plan v w.desk.query.now × IsAtDesk w.desk server };

    ghost does = { λ w. by_caller (λ c old new. ServesAll w.desk c K.plan new) };

    fn work(&self, alloc: Global, memory: &mut Shared, server: &mut Server) {
        let turns = AtGate {
            gate: self.gate,
            worker: server.number,
        };
        serve_chunks(self.rt, alloc, &turns, &self.desk, memory, server);
    }

    ghost stays = { λ w p q server same l c. (on_terms_later same c.0, c.1) };
}
