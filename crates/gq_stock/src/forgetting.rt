//! Numbers are forgotten, for good.

ghost use Rattle.std.specs.Prelude.{◌≡◌, ◌<◌, ◌≤◌, ℕ, List, None, IfNone, IfSome, All, if◌then◌else◌};
ghost use Rattle.gq_shelf.specs.declared.extent.Extent.{Extent};

use crate::{Run, Session};

impl Session {
    ghost use Rattle.gq_ledger.specs.Ledgers.{book_of, all_fresh};
    ghost use Rattle.gq_ledger.specs.Steps.{Leads, Forgets};
    ghost use Rattle.gq_stock.specs.Held.{contents};
    ghost use Rattle.gq_stock.specs.Forgetting.{is_in, ForgotAs};

    // The first number above the one and not above the other under which a chunk is.
    fn next_in(&self, above: u64, last: u64) -> Option<u64>
        ensures above { IfSome result (λ x. above < x) }
        ensures within { IfSome result (λ x. x ≤ last) }
        ensures least { IfSome result (λ x. (m : ℕ) → above < m → m < x → (book_of self.now.chunks).at m ≡ None) }
        ensures none { IfNone result ((m : ℕ) → above < m → m ≤ last → (book_of self.now.chunks).at m ≡ None) }
    {
        match self.after(above) {
            Some((found, _)) => { if found <= last { Some(found) } else { None } }
            None => None,
        }
    }

    // Takes away the chunk of a number that is not above the floor.
    fn remove(&mut self, number: u64)
        requires { number ≤ (book_of self.old.chunks).floor }
        ensures leads { Leads (book_of self.old.chunks) (Forgets number) (book_of self.new.chunks) }
        ensures fresh { all_fresh self.new.chunks ≤ all_fresh self.old.chunks }
    {
        let _was = self.chunks.forget(number);
    }

    // Takes away the chunks of a run of numbers that are not above the floor.
    fn forget_run(&mut self, run: Run)
        requires { run.last ≤ (book_of self.old.chunks).floor }
        ensures at { (n : ℕ) → (book_of self.new.chunks).at n ≡ (if is_in n run then None else (book_of self.old.chunks).at n) }
        ensures floor { (book_of self.new.chunks).floor ≡ (book_of self.old.chunks).floor }
        ensures fresh { all_fresh self.new.chunks ≤ all_fresh self.old.chunks }
    {
        if run.last < run.first {
            return;
        }
        self.remove(run.first);
        let mut from = run.first;
        while let Some(found) = self.next_in(from, run.last) {
            self.remove(found);
            from = found;
        }
    }

    /// Forgets the numbers of the runs, of which none is above the floor: they are absent from now on. The floor is at this number, or where it was if that is
    /// above it. No more is in memory than before. So it may be asked any number of times.
    pub fn forget(&mut self, floor: u64, runs: &[Run])
        requires { All (λ run. run.last ≤ floor) runs.now }
        ensures contents { (written : Extent → List ℕ) → ForgotAs (contents written (book_of self.old.chunks)) floor runs.now (contents written (book_of self.new.chunks)) }
        ensures chunks { ForgotAs (book_of self.old.chunks) floor runs.now (book_of self.new.chunks) }
        ensures fresh { all_fresh self.new.chunks ≤ all_fresh self.old.chunks }
    {
        self.chunks.raise(floor);
        for run in runs {
            self.forget_run(*run);
        }
    }
}
