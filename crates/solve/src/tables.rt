// The lent tables, and the builds behind the rows of them that are in use.
ghost use Rattle.std.specs.Prelude.{◌≡◌, ◌+◌, ◌≤◌, [], ◌∷◌, length};
ghost use Rattle.automaton.specs.Nfa.{all_words as all_words_of};
ghost use Rattle.build.specs.Concats.{concats};
ghost use Rattle.build.specs.Pairs.{products};
ghost use Rattle.std.specs.List.{list_any};
ghost use Rattle.automaton.specs.declared.State.{State};
ghost use Rattle.build.specs.Tables.{at, part, InUse, Stands};
ghost use Rattle.solve.specs.Builds.{Adds, Went, passed, with_rows};
ghost use Rattle.verdict.specs.Course.{pattern, join as joined};

use alphabet::Alphabet;
use automaton::{Arc, State};
use build::all_words::all_words;
use build::concat::concat;
use build::product::product;
use build::{Operands, Place, Rows, Stop};
use verdict::Table;

// Why the builds of a part end early.
#[derive(Clone, Copy, Debug, PartialEq, Eq)]
pub enum Halt {
    // a build passes the table
    Full(Table),
    // a product has no accepting state
    Empty,
}

impl From<Table> for Halt {
    ghost use Rattle.solve.specs.declared.tables.Halt.TheVariants.{Full};

    ghost from_gives = { λ table halt. halt ≡ Full table };

    fn from(table: Table) -> Halt {
        Halt::Full(table)
    }
}

// The rows of the lent tables, and how many of them are in use.
#[derive(Drop)]
pub struct Tables<'s, 'a, A: Alphabet> {
    pub states: &'s mut [State],
    pub arcs: &'a mut [Arc<A::Label>],
    pub used: Rows,
    ghost in_use: { InUse states.now arcs.now used },
}

impl<'s, 'a, A: Alphabet> Tables<'s, 'a, A> {
    pub fn new(
        states: &'s mut [State],
        arcs: &'a mut [Arc<A::Label>],
        used: Rows,
    ) -> Tables<'s, 'a, A>
        requires in_use { InUse states.old arcs.old used }
        ensures same_states { result.states.ghost_name ≡ states.entry.ghost_name }
        ensures same_arcs { result.arcs.ghost_name ≡ arcs.entry.ghost_name }
        ensures lent_states { result.states.now ≡ states.old }
        ensures lent_arcs { result.arcs.now ≡ arcs.old }
        ensures lent_used { result.used ≡ used }
    {
        Tables { states, arcs, used }
    }
}

// The table that a build passes. Not `From`: `Outside` names no table, and does not come here.
fn table_of(stop: Stop) -> Table
    ensures names { result ≡ passed stop }
{
    match stop {
        Stop::StatesFull => Table::States,
        Stop::ArcsFull => Table::Arcs,
        Stop::Outside => Table::Words,
    }
}

// Whether some row accepts.
fn some_accepts(states: &[State]) -> bool
    ensures tests { result ≡ list_any (λ (s : State). s.marks.accepting) states.now }
{
    states.iter().any(|state| state.marks.accepting)
}

// `same_states`, `same_arcs`: without them a caller knows nothing of the lent rows after the last call.
// `Stands` at each function, not in a type of places: it holds of the rows as they are, and a build changes these.
impl<A: Alphabet> Tables<'_, '_, A> {
    // All words.
    pub fn all_words(&mut self) -> Result<Place, Table>
        ensures adds { Adds A.Alphabet.labels (all_words_of A.Alphabet.labels) self.old.states.now self.old.arcs.now self.old.used self.new.states.now self.new.arcs.now self.new.used result }
        ensures same_states { self.new.states.ghost_name ≡ self.old.states.ghost_name }
        ensures same_arcs { self.new.arcs.ghost_name ≡ self.old.arcs.ghost_name }
    {
        let all = all_words::<A>(self.states, self.arcs, self.used).map_err(table_of)?;
        self.used = all.end();
        Ok(all)
    }

    // The product of two automata.
    // Not one function with `concat`, given the build: its contract would stand once more, as that of a parameter.
    fn product(&mut self, left: Place, right: Place) -> Result<Place, Table>
        requires left_stands { Stands self.old.states.now self.old.arcs.now self.old.used left }
        requires right_stands { Stands self.old.states.now self.old.arcs.now self.old.used right }
        ensures adds { Adds A.Alphabet.labels (products A.Alphabet.labels (at self.old.states.now self.old.arcs.now left) (at self.old.states.now self.old.arcs.now right)) self.old.states.now self.old.arcs.now self.old.used self.new.states.now self.new.arcs.now self.new.used result }
        ensures same_states { self.new.states.ghost_name ≡ self.old.states.ghost_name }
        ensures same_arcs { self.new.arcs.ghost_name ≡ self.old.arcs.ghost_name }
    {
        let used = self.used;
        let job = Operands { used, left, right };
        let met = product::<A>(self.states, self.arcs, job).map_err(table_of)?;
        self.used = met.end();
        Ok(met)
    }

    // The concatenation of two automata.
    fn concat(&mut self, left: Place, right: Place) -> Result<Place, Table>
        requires left_stands { Stands self.old.states.now self.old.arcs.now self.old.used left }
        requires right_stands { Stands self.old.states.now self.old.arcs.now self.old.used right }
        ensures adds { Adds A.Alphabet.labels (concats A.Alphabet.labels (at self.old.states.now self.old.arcs.now left) (at self.old.states.now self.old.arcs.now right)) self.old.states.now self.old.arcs.now self.old.used self.new.states.now self.new.arcs.now self.new.used result }
        ensures same_states { self.new.states.ghost_name ≡ self.old.states.ghost_name }
        ensures same_arcs { self.new.arcs.ghost_name ≡ self.old.arcs.ghost_name }
    {
        let used = self.used;
        let job = Operands { used, left, right };
        let joined = concat::<A>(self.states, self.arcs, job).map_err(table_of)?;
        self.used = joined.end();
        Ok(joined)
    }

    // Whether some state of the automaton accepts.
    // Cut here, not by a method of `Place`: no other function here cuts states by a place.
    fn is_alive(&self, place: Place) -> bool
        requires fits { place.first.states + place.count.states ≤ length self.now.states.now }
        ensures tests { result ≡ list_any (λ (s : State). s.marks.accepting) (part self.now.states.now place.first.states place.count.states) }
    {
        some_accepts(&self.states[place.first.states..][..place.count.states])
    }

    // Meets the running result with an automaton.
    // With `if`: `then_some(met).ok_or(Halt::Empty)` is no plainer.
    pub fn meet(&mut self, running: Place, with: Place) -> Result<Place, Halt>
        requires running_stands { Stands self.old.states.now self.old.arcs.now self.old.used running }
        requires other_stands { Stands self.old.states.now self.old.arcs.now self.old.used «with» }
        ensures goes { Went A.Alphabet.labels (pattern (at self.old.states.now self.old.arcs.now «with») ∷ []) (record { used = self.old.used; running = running }) self.old.states.now self.old.arcs.now self.new.states.now self.new.arcs.now (with_rows self.new.used result) }
        ensures same_states { self.new.states.ghost_name ≡ self.old.states.ghost_name }
        ensures same_arcs { self.new.arcs.ghost_name ≡ self.old.arcs.ghost_name }
    {
        let met = self.product(running, with)?;
        if self.is_alive(met) {
            Ok(met)
        } else {
            Err(Halt::Empty)
        }
    }

    // Meets the running result with the concatenation of two automata.
    pub fn meet_joined(&mut self, running: Place, left: Place, right: Place) -> Result<Place, Halt>
        requires running_stands { Stands self.old.states.now self.old.arcs.now self.old.used running }
        requires left_stands { Stands self.old.states.now self.old.arcs.now self.old.used left }
        requires right_stands { Stands self.old.states.now self.old.arcs.now self.old.used right }
        ensures goes { Went A.Alphabet.labels (joined (at self.old.states.now self.old.arcs.now left) (at self.old.states.now self.old.arcs.now right) ∷ []) (record { used = self.old.used; running = running }) self.old.states.now self.old.arcs.now self.new.states.now self.new.arcs.now (with_rows self.new.used result) }
        ensures same_states { self.new.states.ghost_name ≡ self.old.states.ghost_name }
        ensures same_arcs { self.new.arcs.ghost_name ≡ self.old.arcs.ghost_name }
    {
        let joined = self.concat(left, right)?;
        self.meet(running, joined)
    }
}
