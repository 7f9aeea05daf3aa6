//! Two machines as one.

ghost use Rattle.std.specs.Prelude.{◌≡◌, ◌+◌, ◌-◌, ◌^◌, ℕ, List, Bool, true, false, min};
ghost use Rattle.std.specs.List.{list_all};
ghost use Rattle.gq_pair.specs.Pairs.{StepsBy, RecallsBy, readable_by};

use gq_keeper::{Fault, Lasting, Machine, Unread};
use std::marker::PhantomData;

/// Whose line it is.
#[derive(Clone, Copy)]
pub enum Taker {
    /// The first machine's.
    First,
    /// The second one's.
    Second,
    /// The first one takes it, and then the second one.
    Both,
}

/// How the lines and the facts of two machines are told apart. A fact is of one of them, and the other reads none such.
pub trait Parts<A: Lasting, B: Lasting> {
    ghost use Rattle.gq_pair.specs.declared.pair.Taker.{Taker};

    /// Whose a line is.
    ghost takes: { List ℕ → Taker };

    /// Whether a fact is the second one's.
    ghost is_second: { List ℕ → Bool };

    /// Whose a line is.
    fn taker_of(line: &[u8]) -> Taker
        ensures { result ≡ takes line.now };

    /// Whether a fact is the second one's.
    fn is_second_fact(line: &[u8]) -> bool
        ensures { result ≡ is_second line.now };

    /// The facts of the first one's steps are not the second one's.
    ghost first_facts: { (old : A) (line : List ℕ) (facts : List (List ℕ)) (told : List ℕ) (new : A) → A.steps old line facts told new → list_all (λ fact. readable_by (is_second fact) true false) facts ≡ true };

    /// Those of the second one's are.
    ghost second_facts: { (old : B) (line : List ℕ) (facts : List (List ℕ)) (told : List ℕ) (new : B) → B.steps old line facts told new → list_all is_second facts ≡ true };

    /// The first one reads none of the second one's.
    ghost first_reads: { (m : A) (fact : List ℕ) → A.readable m fact ≡ true → is_second fact ≡ false };

    /// The second one reads no others.
    ghost second_reads: { (m : B) (fact : List ℕ) → B.readable m fact ≡ true → is_second fact ≡ true };
}

/// Two machines as one. A line goes to the one whose it is, or to both; the facts of both stand in one journal, from which a start makes both again.
#[derive(Drop)]
pub struct Pair<A: Lasting + Drop, B: Lasting + Drop, R: Parts<A, B>> {
    /// The first machine. Its facts come first, where both give some.
    pub first: A,
    /// The second one.
    pub second: B,
    /// How their lines and facts are told apart.
    pub parts: PhantomData<R>,
}

impl<A: Lasting + Drop, B: Lasting + Drop, R: Parts<A, B>> Machine for Pair<A, B, R> {
    ghost steps = { λ old line facts told new. StepsBy A.steps B.steps (R.takes line) old.first old.second line facts told new.first new.second };

    ghost recalls = { λ old line new. RecallsBy A.recalls B.recalls (R.is_second line) old.first old.second line new.first new.second };

    ghost readable = { λ m line. readable_by (R.is_second line) (A.readable m.first line) (B.readable m.second line) };

    fn recall(&mut self, line: &[u8]) -> Result<(), Unread> {
        if R::is_second_fact(line) {
            self.second.recall(line)
        } else {
            self.first.recall(line)
        }
    }

    fn take(&mut self, line: &[u8], facts: &mut Vec<u8>, told: &mut Vec<u8>) -> Result<(), Fault> {
        match R::taker_of(line) {
            Taker::First => self.first.take(line, facts, told),
            Taker::Second => self.second.take(line, facts, told),
            Taker::Both => {
                self.first.take(line, facts, told)?;
                self.second.take(line, facts, told)
            }
        }
    }

    ghost use Rattle.gq_pair.specs.Pairing.{reads_on};

    ghost reads_on = { λ old line new other recalled. reads_on A.recalls B.recalls (λ m. A.readable m other) (λ n. B.readable n other) (R.is_second other) (R.is_second line) old.first old.second line new.first new.second
        (λ one. A.reads_on old.first line new.first other one) (λ one. B.reads_on old.second line new.second other one) recalled };
}

impl<A: Lasting + Drop, B: Lasting + Drop, R: Parts<A, B>> Lasting for Pair<A, B, R> {
    ghost use Rattle.gq_pair.specs.Parting.{firsts, seconds, split, read_both};
    ghost use Rattle.gq_pair.specs.Pairing.{gives_facts, gives_readable, keeps_back, keeps_on, recalls_on, keeps_rest};

    ghost blank = { λ plan m new. A.blank plan m.first new.first × B.blank plan m.second new.second };

    ghost is_of = { λ plan m. A.is_of plan m.first × B.is_of plan m.second };

    ghost rests = { λ m again. A.rests m.first again.first × B.rests m.second again.second };

    ghost contents = { λ m. min (A.contents m.first + B.contents m.second) (2 ^ 64 - 1) };

    fn content_bytes(&self) -> usize {
        self.first
            .content_bytes()
            .saturating_add(self.second.content_bytes())
    }

    fn put_needed(&self, facts: &mut Vec<u8>) -> Result<(), Fault> {
        self.first.put_needed(facts)?;
        self.second.put_needed(facts)
    }

    ghost gives_facts = { λ old line facts told new step. gives_facts A.steps B.steps (R.takes line) old.first old.second line facts told new.first new.second
        (λ facts told one. A.gives_facts old.first line facts told new.first one) (λ facts told one. B.gives_facts old.second line facts told new.second one) step };

    ghost gives_readable = { λ plan old line facts told new other step blank. gives_readable A.steps B.steps R.is_second (A.readable other.first) (B.readable other.second) (R.takes line) old.first old.second line facts told new.first new.second
        (λ facts told one. (A.gives_readable plan old.first line facts told new.first other.first one blank.0, R.first_facts old.first line facts told new.first one))
        (λ facts told one. (B.gives_readable plan old.second line facts told new.second other.second one blank.1, R.second_facts old.second line facts told new.second one)) step };

    ghost keeps_blank = { λ plan old line facts told new other step blank. keeps_back A.steps B.steps (λ m. A.blank plan m other.first) (λ n. B.blank plan n other.second) (R.takes line) old.first old.second line facts told new.first new.second
        (λ facts told one was. A.keeps_blank plan old.first line facts told new.first other.first one was) (λ facts told one was. B.keeps_blank plan old.second line facts told new.second other.second one was) step blank };

    ghost keeps_plan = { λ plan old line facts told new step was. keeps_on A.steps B.steps (λ m. A.is_of plan m) (λ n. B.is_of plan n) (R.takes line) old.first old.second line facts told new.first new.second
        (λ facts told one its. A.keeps_plan plan old.first line facts told new.first one its) (λ facts told one its. B.keeps_plan plan old.second line facts told new.second one its) step was };

    ghost recalls_plan = { λ plan old line new recalled was. recalls_on A.recalls B.recalls (λ m. A.is_of plan m) (λ n. B.is_of plan n) (R.is_second line) old.first old.second line new.first new.second
        (λ one its. A.recalls_plan plan old.first line new.first one its) (λ one its. B.recalls_plan plan old.second line new.second one its) recalled was };

    ghost keeps_rest = { λ old line facts told new before after step rest r. keeps_rest A.steps B.steps R.is_second A.recalls B.recalls A.rests B.rests (R.takes line) old.first old.second line facts told new.first new.second before.first after.first before.second after.second
        (λ facts told one. R.first_facts old.first line facts told new.first one) (λ facts told one. R.second_facts old.second line facts told new.second one)
        (λ facts told one its all. A.keeps_rest old.first line facts told new.first before.first after.first one its all) (λ facts told one its all. B.keeps_rest old.second line facts told new.second before.second after.second one its all)
        step rest (split (λ p. p.first) (λ p. p.second) A.recalls B.recalls R.is_second facts before after r) };

    ghost reads_again = { λ plan first last new lines blank r other. read_both R.is_second (A.readable new.first) (B.readable new.second) lines
        (A.reads_again plan first.first last.first new.first (firsts R.is_second lines) blank.0 (split (λ p. p.first) (λ p. p.second) A.recalls B.recalls R.is_second lines first last r).0 other.0)
        (B.reads_again plan first.second last.second new.second (seconds R.is_second lines) blank.1 (split (λ p. p.first) (λ p. p.second) A.recalls B.recalls R.is_second lines first last r).1 other.1) };

    ghost starts_again = { λ plan first last new again lines blank r other s. (
      A.starts_again plan first.first last.first new.first again.first (firsts R.is_second lines) blank.0 (split (λ p. p.first) (λ p. p.second) A.recalls B.recalls R.is_second lines first last r).0 other.0 (split (λ p. p.first) (λ p. p.second) A.recalls B.recalls R.is_second lines new again s).0,
      B.starts_again plan first.second last.second new.second again.second (seconds R.is_second lines) blank.1 (split (λ p. p.first) (λ p. p.second) A.recalls B.recalls R.is_second lines first last r).1 other.1 (split (λ p. p.first) (λ p. p.second) A.recalls B.recalls R.is_second lines new again s).1,
    ) };
}
