ghost use Rattle.std.specs.Prelude.{◌≡◌, Option, None, Some};
ghost use Rattle.fm_records_query.specs.Plan.{Plan};
ghost use Rattle.fm_records_query.specs.contracts.query.Query as asked;
ghost use Rattle.fm_c_calls.specs.Kept.{kept, Keeps};

use crate::loose::Loose;
use fm_records_query::Query;
use std::alloc::Global;
use std::marker::{Model, Send};
use std::ptr::null_mut;

/// A query that C keeps, as its address alone, so that C sees nothing of what it owns; or none.
#[repr(C)]
#[derive(Drop)]
pub struct Handle {
    at: *mut u8,
    pub ghost query: { Option Plan },
}

impl Model for Handle {
    ghost also_owns = { λ h. kept asked.the_row h.at h.query };
}

/// What it keeps is plain data.
unsafe impl Send for Handle {}

impl Handle {
    /// One that keeps none.
    pub fn none() -> Handle
        ensures { result.query ≡ None }
    {
        Handle { at: null_mut() }
    }

    /// One that keeps this query.
    pub fn of(query: Box<Query>) -> Handle
        ensures { result.query ≡ Some query.value }
    {
        let (handle, _) = Handle::seal(Loose::of(query));
        handle
    }

    /// The query that it keeps; from here on it keeps none.
    pub fn take(&mut self, alloc: Global) -> Box<Query>
        requires { Keeps self.old.query }
        ensures query { self.old.query ≡ Some result.value }
        ensures none { self.new.query ≡ None }
    {
        std::mem::replace(self, Handle::none())
            .open(alloc)
            .into_box()
    }

    fn seal(loose: Loose<Query, Global>) -> (Handle, Global)
        ensures { result.0.query ≡ Some loose.value }
    {
        let Loose { at, alloc } = loose;
        (Handle { at: at as *mut u8 }, alloc)
    }

    fn open(self, alloc: Global) -> Loose<Query, Global>
        requires { Keeps self.query }
        ensures { self.query ≡ Some result.value }
    {
        let Handle { at } = self;
        Loose {
            at: at as *mut Query,
            alloc,
        }
    }
}
