//! Drawing numbers, each once.

ghost use Rattle.std.specs.Prelude.{◌≡◌, ℕ, ◌+◌, ◌^◌, ◌<◌, ◌≤◌, ◌≢◌, List, [], ◌∷◌, ◌++◌, max, IfOk, IfSome, IfNone, None};
ghost use Rattle.crew.specs.Tickets.{Closes, HasNoRepeat, IsAt, Tickets, pass_of, times};
ghost use Rattle.crew.specs.declared.claims.Known.{Known as View};

use atomic_table::{Join, Play, Seat, Split, Table, TableRule};
use std::alloc::{AllocError, Global};
use std::collections::LinkedList;
use std::marker::Model;

/// What the rule of the claims knows of a pass. It is for contracts only: no value of it is made.
pub struct Known {
    pub is_spent: bool,
    pub pieces: u64,
    pub seen: u64,
    pub drawn: LinkedList<u64>,
}

// The rule of the one word, which says how many numbers were drawn.
struct ClaimRule;

impl TableRule<(), Known, u64> for ClaimRule {
    ghost use Rattle.crew.specs.Tickets.{Ruled, known};

    ghost holds = { λ pieces s. Ruled pieces s };

    ghost first = { λ pieces. known pieces 0 [] };
}

// The step of a claim: the word is as the pass last saw it and grows by one, or it is greater and stays.
struct ClaimStep;

impl Play<(), Known> for ClaimStep {
    ghost use Rattle.crew.specs.Tickets.{Draws};

    ghost then = { λ step me found after. Draws step me found after };
}

// The step of a look at the word, which changes nothing.
struct LookStep;

impl Play<(), Known> for LookStep {
    ghost use Rattle.crew.specs.Tickets.{Looks};

    ghost then = { λ step me found after. Looks step me found after };
}

// The split of a pass into itself and a new one that drew nothing.
struct PassSplit;

impl Split<Known> for PassSplit {
    ghost use Rattle.crew.specs.Tickets.{fresh};

    ghost left = { λ v. v };

    ghost right = { λ v. fresh v };
}

// The join of two passes to one.
struct PassJoin;

impl Join<Known> for PassJoin {
    ghost use Rattle.crew.specs.Tickets.{joined, spent};

    ghost both = { λ v w. joined v w };

    ghost spent = { spent };
}

/// Pieces of work, numbered from 0, for passes to claim: each number is drawn once, by the pass that comes first. A pass is used only
/// with the claims that it came from.
pub struct Claims {
    pieces: u64,
    table: Table<(), Known, u64, ClaimRule, Global>,
}

// Written out, so that a function that drops one has a call in its proof, and not a copy of this body.
impl Drop for Claims {
    fn drop(self) {
        let Claims {
            pieces: _,
            table: _table,
        } = self;
    }
}

impl Model for Claims {
    ghost use Rattle.std.specs.Prelude.{◌≡◌, ◌≤◌, ◌^◌};
    ghost use Rattle.crew.specs.Tickets.{ClaimsView};

    ghost Value = { ClaimsView };

    ghost view = { λ c. record { id = c.table.shared.table_id; pieces = c.pieces } };

    ghost invariant = { λ c. (c.table.shared.key ≡ c.pieces) × (c.table.shared.table_id.words ≡ 1) × (c.table.shared.table_id.slots ≡ 0) × (c.pieces ≤ 2 ^ 32) };
}

/// The right to claim. It moves from worker to worker. Contracts see which numbers it drew, and how many it has seen drawn in all.
#[derive(Drop)]
pub struct Pass {
    seen: u64,
    seat: Seat<(), Known>,
}

impl Model for Pass {
    ghost use Rattle.std.specs.Prelude.{◌≡◌, ◌≤◌, []};
    ghost use Rattle.crew.specs.Tickets.{PassView, known};

    ghost Value = { PassView };

    ghost view = { λ p. record { claims = record { id = p.seat.table_id; pieces = p.seat.me.0.pieces }; seen = p.seen; drawn = p.seat.me.0.drawn } };

    ghost invariant = { λ p. (p.seat.me ≡ (known p.seat.me.0.pieces p.seen p.seat.me.0.drawn, [])) × (p.seen ≤ p.seat.me.0.pieces) };
}

impl Claims {
    /// Makes claims of at most 2^32 pieces, none of them claimed, and the pass that all others are split from. Returns an error if out of
    /// memory.
    pub fn new(alloc: Global, pieces: u64) -> Result<(Claims, Pass), AllocError>
        requires { pieces ≤ 2 ^ 32 }
        ensures { IfOk result (λ made. (made.0.pieces ≡ pieces) × (made.1 ≡ pass_of made.0 0 [])) }
    {
        let (table, seat) = Table::of_words(alloc, &[0], &pieces)?;
        Ok((Claims { pieces, table }, Pass { seen: 0, seat }))
    }

    /// Returns the pass, and a new one that drew nothing. Allocates nothing.
    pub fn split(&self, pass: Pass) -> (Pass, Pass)
        requires { pass.claims ≡ self.now }
        ensures kept { result.0 ≡ pass }
        ensures made { result.1 ≡ pass_of self.now pass.seen [] }
    {
        let Pass { seen, mut seat } = pass;
        let other = self.table.shared.split_seat::<PassSplit>(&mut seat);
        (Pass { seen, seat }, Pass { seen, seat: other })
    }

    /// Draws the next number. Returns `None` if all are drawn, and from then on. Tries until it has drawn a number or sees that none is
    /// left; after each failed try the word is greater. Allocates nothing.
    pub fn claim(&self, pass: &mut Pass) -> Option<u64>
        requires { pass.old.claims ≡ self.now }
        ensures drew { IfSome result (λ number. (pass.old.seen ≤ number) × (number < self.now.pieces) × (pass.new ≡ pass_of self.now (number + 1) (pass.old.drawn ++ number ∷ []))) }
        ensures none { IfNone result (pass.new ≡ pass_of self.now self.now.pieces pass.old.drawn) }
        ensures again { pass.old.seen ≡ self.now.pieces → result ≡ None }
        ensures once { IfSome result (λ _. HasNoRepeat pass.new.drawn) }
    {
        while pass.seen < self.pieces {
            let next = pass.seen;
            let found = self
                .table
                .shared
                .compare_exchange::<ClaimStep>(&mut pass.seat, 0, next, next + 1);
            if found == next {
                pass.seen = next + 1;
                return Some(next);
            }
            pass.seen = found;
        }
        None
    }

    /// Joins two passes to one, with the numbers of both; none of them is there twice. Allocates nothing.
    pub fn join(&self, pass: Pass, other: Pass) -> Pass
        requires this { pass.claims ≡ self.now }
        requires that { other.claims ≡ self.now }
        ensures both { result ≡ pass_of self.now (max pass.seen other.seen) (pass.drawn ++ other.drawn) }
        ensures once { HasNoRepeat result.drawn }
    {
        let Pass { seen, mut seat } = pass;
        let Pass {
            seen: other_seen,
            seat: other_seat,
        } = other;
        self.table
            .shared
            .join_seat::<PassJoin>(&mut seat, other_seat);
        // for the proof: after a look no number is there twice
        self.table.shared.load::<LookStep>(&mut seat, 0);
        Pass {
            seen: seen.max(other_seen),
            seat,
        }
    }

    /// Ends the claims, and returns how many pieces were claimed: each number below that was drawn once, and no other. Allocates nothing.
    pub fn close(self, pass: Pass) -> u64
        requires { pass.claims ≡ self }
        ensures word { Closes pass result }
        ensures seen { pass.seen ≤ result }
        ensures most { result ≤ self.pieces }
        ensures all { pass.seen ≡ self.pieces → result ≡ self.pieces }
    {
        let Claims { pieces: _, table } = self;
        let Pass { seen: _, seat } = pass;
        let closed = table.close_with(seat);
        let word = closed.word(0);
        closed.free();
        word
    }
}

/// Proves from the rule of the claims that each drawn number is once in the list of just one pass, and any other number in none.
pub fn one_drawer()
    ensures drawn { (pieces word : ℕ) (views : List View) → Tickets pieces word views → (x : ℕ) → x < word →
        (seat : ℕ) × (v : View) × IsAt views seat v × (times x v.drawn ≡ 1) × ((j : ℕ) (u : View) → j ≢ seat → IsAt views j u → times x u.drawn ≡ 0) }
    ensures left { (pieces word : ℕ) (views : List View) → Tickets pieces word views → (x : ℕ) → word ≤ x → (seat : ℕ) (v : View) → IsAt views seat v → times x v.drawn ≡ 0 }
{}
