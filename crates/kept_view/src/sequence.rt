//! Elements that are followed one after the other.

ghost use Rattle.std.specs.Prelude.{◌≡◌, [], ◌∷◌, Ok, true, false, OnErr, IfOk, IfSome};
ghost use Rattle.frac_keys.specs.Rising.{are_rising};
ghost use Rattle.elem_store.specs.Updates.{ids_of};
ghost use Rattle.kept_view.specs.inner.Following.{HaveFollowed};

use crate::coming::alone;
use crate::drawing::are_live;
use crate::kept::Kept;
use elem::SharedElement;
use std::alloc::{AllocError, Global};

impl Kept {
    /// Where memory is taken.
    pub(crate) fn allocator(&self) -> Global {
        *self.live.allocator()
    }

    /// After it followed what is stored of the ids of these elements, all of them in their places
    /// at once, or one after the other, if all are found near their places. Otherwise, and for want
    /// of memory, what is kept is given up.
    pub(crate) fn follow(self, news: &Vec<SharedElement>) -> Result<Option<Kept>, AllocError>
        requires { are_rising (ids_of news.now.items) ≡ true }
        ensures { IfOk result (λ found. IfSome found (HaveFollowed self news.now.items)) }
    {
        let mut kept = self;
        if kept.replace_live(news)? {
            return Ok(Some(kept));
        }
        kept.follow_each(news)
    }

    /// Replaces elements, if none is deleted, each is held with the same index and not much is near
    /// them. For want of memory nothing changes.
    pub(crate) fn replace_live(&mut self, news: &Vec<SharedElement>) -> Result<bool, AllocError>
        requires { are_rising (ids_of news.now.items) ≡ true }
        ensures new { result ≡ Ok true → HaveFollowed self.old news.now.items self.new }
        ensures old { OnErr result (self.new ≡ self.old) }
        ensures other { result ≡ Ok false → self.new ≡ self.old }
    {
        if are_live(news) {
            self.replace_all(news)
        } else {
            Ok(false)
        }
    }

    /// After it followed elements one after the other, if all are found near their places, with not
    /// much near them. Otherwise, and for want of memory, what is kept is given up.
    pub(crate) fn follow_each(self, news: &Vec<SharedElement>) -> Result<Option<Kept>, AllocError>
        requires { are_rising (ids_of news.now.items) ≡ true }
        ensures { IfOk result (λ found. IfSome found (HaveFollowed self news.now.items)) }
    {
        let mut kept = self;
        for new in news {
            let Some(after) = kept.follow_one(new)? else {
                return Ok(None);
            };
            kept = after;
        }
        Ok(Some(kept))
    }

    /// After it followed an element: it is replaced in its place, or the one of its id goes, and it
    /// comes if it is live.
    fn follow_one(self, new: &SharedElement) -> Result<Option<Kept>, AllocError>
        ensures { IfOk result (λ found. IfSome found (HaveFollowed self (new.now ∷ []))) }
    {
        let mut kept = self;
        let news = alone(kept.allocator(), new)?;
        if kept.replace_live(&news)? {
            return Ok(Some(kept));
        }
        let Some(kept) = kept.go(new.id())? else {
            return Ok(None);
        };
        if new.get().deleted {
            return Ok(Some(kept));
        }
        kept.come(new)
    }
}
