// The calls on a sheet.
ghost use Rattle.std.specs.Prelude.{◌≡◌, Decides};
ghost use Rattle.giver.specs.Told.{number as giver_number};
ghost use Rattle.sheet.specs.Calls.{view, counts_of, number, empty, PartAnswer, PatternAnswer, JoinAnswer};
ghost use Rattle.sheet.specs.Patterns.{Whole};

use crate::circle::closes;
use crate::pattern::{fits, write_rows};
use crate::{Counts, Held, Join, MAX_PARTS, Refusal, Sheet};
use alphabet::Alphabet;
use arrayvec::ArrayVec;
use automaton::{Arc, State};
use build::operand::stands;
use build::{Place, Rows};
use giver::Giver;
use giver::accepts::check;

impl Refusal {
    // Its number in docs/RULES.md: written out, so that each number stands beside its name.
    pub fn number(self) -> u32
        ensures is_number { result ≡ number self }
    {
        match self {
            Refusal::UnknownPart => 1,
            Refusal::Full => 2,
            Refusal::TooLarge => 3,
            Refusal::ArcOutside => 4,
            Refusal::RowsLost => 5,
            Refusal::NoRoom => 6,
            Refusal::Circle => 7,
            Refusal::ShortReport => 8,
        }
    }
}

// A refusal of the automaton of a pattern.
impl From<giver::Refusal> for Refusal {
    ghost from_gives = { λ e refusal. number refusal ≡ giver_number e };

    fn from(e: giver::Refusal) -> Refusal {
        match e {
            giver::Refusal::TooLarge => Refusal::TooLarge,
            giver::Refusal::ArcOutside => Refusal::ArcOutside,
        }
    }
}

impl Sheet {
    // A sheet that holds nothing.
    pub fn new() -> Sheet
        ensures holds_nothing { view result ≡ empty }
    {
        Sheet {
            parts: 0,
            patterns: ArrayVec::new(),
            joins: ArrayVec::new(),
            held: Rows::default(),
        }
    }

    // How much the sheet holds.
    pub fn counts(&self) -> Counts
        ensures counted { result ≡ counts_of (view self.now) }
    {
        Counts {
            parts: self.parts,
            patterns: self.patterns.len(),
            joins: self.joins.len(),
            held: self.held,
        }
    }

    // The next part, by its number.
    pub fn part(&mut self) -> Result<usize, Refusal>
        ensures answers { PartAnswer (view self.old) (view self.new) result }
    {
        let part = self.parts;
        if part >= MAX_PARTS {
            return Err(Refusal::Full);
        }
        self.parts += 1;
        Ok(part)
    }

    // Holds a giver's automaton as a pattern of a part, copied behind the held rows.
    pub fn pattern<A: Alphabet, G: Giver<A>>(
        &mut self,
        states: &mut [State],
        arcs: &mut [Arc<A::Label>],
        part: usize,
        giver: &G,
    ) -> Result<(), Refusal>
        ensures answers { PatternAnswer (view self.old) states.old arcs.old part (G.Giver.automaton giver.now) (view self.new) states.new arcs.new result }
    {
        if part >= self.parts {
            return Err(Refusal::UnknownPart);
        }
        if self.patterns.is_full() {
            return Err(Refusal::Full);
        }
        check(giver)?;
        if !self.is_whole(states, arcs) {
            return Err(Refusal::RowsLost);
        }
        let held = self.held;
        let count = Rows {
            states: giver.state_count(),
            arcs: giver.arc_count(),
        };
        let place = Place { first: held, count };
        let end = place.end();
        if !fits(states, arcs, end) {
            return Err(Refusal::NoRoom);
        }
        write_rows(states, held.states, count.states, |q| giver.marks(q).into());
        write_rows(arcs, held.arcs, count.arcs, |k| giver.arc(k));
        self.patterns.push(Held { part, place });
        self.held = end;
        Ok(())
    }

    // Holds that the word of the whole is that of the left followed by that of the right.
    pub fn join(&mut self, join: Join) -> Result<(), Refusal>
        ensures answers { JoinAnswer (view self.old) join (view self.new) result }
    {
        let parts = self.parts;
        if join.whole >= parts || join.left >= parts || join.right >= parts {
            return Err(Refusal::UnknownPart);
        }
        if self.joins.is_full() {
            return Err(Refusal::Full);
        }
        if closes(&self.joins, join) {
            return Err(Refusal::Circle);
        }
        self.joins.push(join);
        Ok(())
    }

    // The held patterns, in the order in which they were accepted.
    pub fn patterns(&self) -> &[Held]
        ensures held_patterns { result.now ≡ (view self.now).patterns }
    {
        &self.patterns
    }

    // The joins, in the order in which they were accepted.
    pub fn joins(&self) -> &[Join]
        ensures held_joins { result.now ≡ (view self.now).joins }
    {
        &self.joins
    }

    // Whether the tables have the held rows, and no held arc leads outside its pattern.
    pub fn is_whole<L: Copy>(&self, states: &[State], arcs: &[Arc<L>]) -> bool
        ensures decides { Decides result (Whole (view self.now).patterns (view self.now).held states.now arcs.now) }
    {
        let rows = self.held;
        rows.states <= states.len()
            && rows.arcs <= arcs.len()
            && self
                .patterns
                .iter()
                .all(|held| stands(states, arcs, rows, held.place))
    }

    // Lets go of everything.
    pub fn clear(&mut self)
        ensures holds_nothing { view self.new ≡ empty }
    {
        self.parts = 0;
        self.patterns.clear();
        self.joins.clear();
        self.held = Rows::default();
    }
}
