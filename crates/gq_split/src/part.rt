//! Parts of pages.

ghost use Rattle.std.specs.Prelude.{◌≡◌, List, ℕ, Bool, IfOk};
ghost use Rattle.gq_page.specs.Page.{sheet_of};
ghost use Rattle.gq_split.specs.Split.{part_of, counting};

use crate::is_written;
use gq_memory::{GrowCopies, GrowVec, OutOfMemory};
use gq_page::Page;
use std::alloc::Global;

/// Names whose pages are those with one number, at a level.
pub trait Bucket {
    /// Which names it has.
    ghost has: { Self → List ℕ → Bool };

    /// Whether a name is of it.
    fn has(&self, name: &[u8]) -> bool
        ensures { result ≡ has self.now name.now };
}

/// What a page says of the names of a bucket.
pub fn part_of<B: Bucket>(alloc: Global, page: &Page, bucket: &B) -> Result<Page, OutOfMemory>
    ensures { IfOk result (λ part. sheet_of part ≡ part_of (B.has bucket.now) (sheet_of page.now)) }
{
    let mut lines = Vec::new(alloc);
    for line in &page.lines {
        if bucket.has(line.name.as_slice()) {
            lines.grow(line.share()?)?;
        }
    }
    Ok(Page {
        number: page.number,
        after: page.after.same_items()?,
        signpost: None,
        lines,
    })
}

/// What counts of a session for a bucket: its page there, or as long as that was not written what its page of the level before says of these names.
pub fn counting<B: Bucket>(
    alloc: Global,
    before: &Page,
    page: Page,
    bucket: &B,
) -> Result<Page, OutOfMemory>
    ensures { IfOk result (λ counts. sheet_of counts ≡ counting (B.has bucket.now) (sheet_of before.now) (sheet_of page)) }
{
    if is_written(&page) {
        return Ok(page);
    }
    part_of(alloc, before, bucket)
}
