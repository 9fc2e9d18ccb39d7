use crate::advancing::advance;
use fm_close::Shutting;
use fm_rule::{Pass, Pool};
use futures::Future;
use futures::task::{Context, Poll};
use std::marker::{Brand, Model, PhantomData};

/// A close as it was when its polls began: a type that knows it, so that it is known behind all of them.
pub(crate) trait Origin {
    ghost use Rattle.std.specs.Prelude.{Option};
    ghost use Rattle.fm_async.specs.Borrows.{BorrowView};

    ghost start: { Option BorrowView };
}

impl Origin for Brand {
    ghost use Rattle.std.specs.Prelude.{None};

    ghost start = { None };
}

/// A pass that is borrowed.
#[derive(Drop)]
pub(crate) struct PassMut<'a> {
    pub(crate) pass: &'a mut Pass,
}

/// A close of a pass that is borrowed. Whoever polls it, it has come by visits from where it was at first.
pub(crate) struct BorrowedCloser<'p, 'a, O: Origin> {
    pub(crate) pool: &'p Pool,
    pub(crate) borrow: PassMut<'a>,
    pub(crate) close: Shutting,
    pub(crate) of: PhantomData<O>,
}

impl<'p, 'a, O: Origin> Model for BorrowedCloser<'p, 'a, O> {
    ghost use Rattle.fm_async.specs.Borrows.{BorrowView, HasCome, borrow_of};

    ghost Value = { BorrowView };

    ghost view = { λ t. borrow_of t.pool.now t.borrow.pass t.close };

    ghost invariant = { λ t. HasCome O.start (borrow_of t.pool.now t.borrow.pass t.close) };
}

impl<'p, 'a, O: Origin> BorrowedCloser<'p, 'a, O> {
    /// Visits marks up to one that names the arena, or up to the arena's end, and answers whether one names it.
    fn is_blocked(&mut self) -> bool {
        if self.close.is_ended() {
            return false;
        }
        advance(self.pool, self.borrow.pass, &mut self.close).is_some()
    }
}

/// Polls the close until the arena has ended.
#[derive(Drop)]
pub(crate) struct BorrowedFuture<'b, 'p, 'a, O: Origin> {
    pub(crate) closer: &'b mut BorrowedCloser<'p, 'a, O>,
}

impl<'b, 'p, 'a, O: Origin> Future for BorrowedFuture<'b, 'p, 'a, O> {
    type Output = ();

    fn poll(&mut self, cx: &mut Context<'_>) -> Poll<()> {
        if self.closer.is_blocked() {
            cx.yield_now()
        } else {
            Poll::Ready(())
        }
    }
}
