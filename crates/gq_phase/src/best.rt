//! The greatest copy heard in a round, and who told its tag.

ghost use Rattle.std.specs.Prelude.{◌≡◌, ◌<◌, None, Some, OnOk, OnErr};
ghost use Rattle.std.specs.Option.{option_copied};
ghost use Rattle.gq_grid.specs.declared.TheConstants.{MOST_SERVERS};
ghost use Rattle.gq_grid.specs.Sets.{servers};
ghost use Rattle.gq_tag.specs.View.{body_of};
ghost use Rattle.gq_phase.specs.Best.{best_with, exceeds, copied_number, givers_with, tag_in, IsBelow};

use gq_grid::ServerSet;
use gq_memory::OutOfMemory;
use gq_tag::{BodyView, StoredCopy, Tag, newer};
use std::marker::Model;

/// The earliest copy of greatest tag, if one was heard. A greater number than its tag's is left.
#[derive(Debug, Drop)]
pub struct Best {
    copy: Option<StoredCopy>,
}

impl Model for Best {
    ghost use Rattle.std.specs.Prelude.{Option};
    ghost use Rattle.gq_tag.specs.declared.StoredCopy.{StoredCopy};
    ghost use Rattle.gq_phase.specs.Best.{IsBelow};

    ghost Value = { Option StoredCopy };

    ghost view = { λ b. b.copy };

    ghost invariant = { λ b. IsBelow b.copy };
}

impl Best {
    /// No copy was heard.
    pub fn none() -> Best
        ensures { result ≡ None }
    {
        Best { copy: None }
    }

    /// Its tag.
    pub fn tag(&self) -> Option<Tag>
        ensures { result ≡ tag_in self.now }
    {
        match &self.copy {
            Some(copy) => Some(copy.tag),
            None => None,
        }
    }

    /// The greatest copy with what one more reply says.
    pub fn with<'a>(&'a self, body: BodyView<'a>) -> Option<&'a StoredCopy>
        requires { copied_number (body_of body) < u64.MAX }
        ensures value { option_copied result ≡ best_with self.now (body_of body.entry) }
        ensures bound { IsBelow (option_copied result) }
    {
        match (body, &self.copy) {
            (BodyView::Copy(copy), Some(best)) => Some(if newer(copy, best) { copy } else { best }),
            (BodyView::Copy(copy), None) => Some(copy),
            (_, best) => best.as_ref(),
        }
    }

    /// Notes what one more reply says. A copy that is not kept is not cloned.
    #[inline(always)]
    pub fn note(&mut self, body: BodyView<'_>) -> Result<(), OutOfMemory>
        requires { copied_number (body_of body) < u64.MAX }
        ensures ok { OnOk result (self.new ≡ best_with self.old (body_of body.entry)) }
        ensures err { OnErr result (self.new ≡ self.old) }
    {
        if let BodyView::Copy(copy) = body {
            if self.is_exceeded_by(copy) {
                return self.keep(copy);
            }
        }
        Ok(())
    }

    // Keeps the copy in place of the one that it exceeds. It is a call of its own since few replies have a greater copy.
    #[inline(never)]
    fn keep(&mut self, copy: &StoredCopy) -> Result<(), OutOfMemory>
        requires { copy.now.tag.number < u64.MAX }
        ensures ok { OnOk result (self.new ≡ Some copy.now) }
        ensures err { OnErr result (self.new ≡ self.old) }
    {
        self.copy = Some(copy.share()?);
        Ok(())
    }

    /// The servers that told the greatest copy's tag, with what one more server says: it is alone where its tag is
    /// greater, and one more of them where it is the same.
    pub fn givers_with(&self, givers: ServerSet, server: usize, body: BodyView<'_>) -> ServerSet
        requires { server < MOST_SERVERS }
        ensures { servers result ≡ givers_with self.now (servers givers) server (body_of body.entry) }
    {
        let BodyView::Copy(copy) = body else {
            return givers;
        };
        let mut alone = ServerSet::empty();
        alone.insert(server);
        let Some(best) = &self.copy else {
            return alone;
        };
        if newer(copy, best) {
            return alone;
        }
        let mut more = givers;
        if copy.tag == best.tag {
            more.insert(server);
        }
        more
    }

    // Whether no copy was heard or the copy's tag is greater.
    fn is_exceeded_by(&self, copy: &StoredCopy) -> bool
        ensures { result ≡ exceeds self.now copy.now }
    {
        match &self.copy {
            Some(best) => newer(copy, best),
            None => true,
        }
    }
}
