// The builds for a sheet, part by part.
ghost use Rattle.std.specs.Prelude.{◌≡◌, [], ◌∷◌, ◌++◌, map};
ghost use Rattle.std.specs.List.{ContainsAt as Has};
ghost use Rattle.build.specs.Tables.{Stands};
ghost use Rattle.sheet.specs.Calls.{view};
ghost use Rattle.sheet.specs.Patterns.{Whole};
ghost use Rattle.solve.specs.Builds.{Went, AllStand, PartBuilt, with_rows};
ghost use Rattle.solve.specs.Finishing.{Ends, stop_verdict};
ghost use Rattle.solve.specs.Parts.{Among, dones};
ghost use Rattle.verdict.specs.Course.{pattern_operands, join_operands};
ghost use Rattle.verdict.specs.Problem.{read};

use crate::parts::{next, place_of};
use crate::tables::{Halt, Tables};
use alphabet::Alphabet;
use arrayvec::ArrayVec;
use automaton::{Arc, State};
use build::{Place, Rows};
use sheet::{Held, Join, MAX_PARTS, Sheet};
use verdict::Verdict;

impl Halt {
    // The verdict where the builds of a part end early.
    fn at(self, part: usize) -> Verdict
        ensures names { result ≡ stop_verdict part self }
    {
        match self {
            Halt::Full(table) => Verdict::OutOfRoom { table, part },
            Halt::Empty => Verdict::Impossible { part },
        }
    }
}

// `Went` takes rows, not `Tables`: its laws are of rows alone, and a proof names those between two builds.
// `AllStand` is of places and rows, `parts_finished` of joins and parts: no type holds both, so each function asks.
// Patterns and joins have functions of their own: what they are met with has other contracts.
impl<A: Alphabet> Tables<'_, '_, A> {
    // Meets the running result with a pattern, if it is one of the part.
    fn meet_pattern(&mut self, running: Place, held: Held, part: usize) -> Result<Place, Halt>
        requires running_stands { Stands self.old.states.now self.old.arcs.now self.old.used running }
        requires pattern_stands { Stands self.old.states.now self.old.arcs.now self.old.used held.place }
        ensures goes { Went A.Alphabet.labels (pattern_operands (read self.old.states.now self.old.arcs.now held ∷ []) part) (record { used = self.old.used; running = running }) self.old.states.now self.old.arcs.now self.new.states.now self.new.arcs.now (with_rows self.new.used result) }
        ensures same_states { self.new.states.ghost_name ≡ self.old.states.ghost_name }
        ensures same_arcs { self.new.arcs.ghost_name ≡ self.old.arcs.ghost_name }
    {
        if held.part == part {
            self.meet(running, held.place)
        } else {
            Ok(running)
        }
    }

    // Meets the running result with all patterns of the part.
    fn meet_patterns(
        &mut self,
        running: Place,
        patterns: &[Held],
        part: usize,
    ) -> Result<Place, Halt>
        requires running_stands { Stands self.old.states.now self.old.arcs.now self.old.used running }
        requires patterns_stand { AllStand self.old.states.now self.old.arcs.now self.old.used patterns.now }
        ensures goes { Went A.Alphabet.labels (pattern_operands (map (read self.old.states.now self.old.arcs.now) patterns.now) part) (record { used = self.old.used; running = running }) self.old.states.now self.old.arcs.now self.new.states.now self.new.arcs.now (with_rows self.new.used result) }
        ensures same_states { self.new.states.ghost_name ≡ self.old.states.ghost_name }
        ensures same_arcs { self.new.arcs.ghost_name ≡ self.old.arcs.ghost_name }
    {
        let mut met = running;
        for held in patterns {
            met = self.meet_pattern(met, *held, part)?;
        }
        Ok(met)
    }

    // Meets the running result with a join, if its whole is the part.
    fn meet_join(
        &mut self,
        running: Place,
        join: Join,
        finished: &[Held],
        part: usize,
    ) -> Result<Place, Halt>
        requires running_stands { Stands self.old.states.now self.old.arcs.now self.old.used running }
        requires finished_stand { AllStand self.old.states.now self.old.arcs.now self.old.used finished.now }
        requires parts_finished { join.whole ≡ part → Among finished.now join.left × Among finished.now join.right }
        ensures goes { Went A.Alphabet.labels (join_operands (dones self.old.states.now self.old.arcs.now finished.now) (join ∷ []) part) (record { used = self.old.used; running = running }) self.old.states.now self.old.arcs.now self.new.states.now self.new.arcs.now (with_rows self.new.used result) }
        ensures same_states { self.new.states.ghost_name ≡ self.old.states.ghost_name }
        ensures same_arcs { self.new.arcs.ghost_name ≡ self.old.arcs.ghost_name }
    {
        if join.whole == part {
            let left = place_of(finished, join.left);
            let right = place_of(finished, join.right);
            self.meet_joined(running, left, right)
        } else {
            Ok(running)
        }
    }

    // Meets the running result with all joins of the part.
    fn meet_joins(
        &mut self,
        running: Place,
        joins: &[Join],
        finished: &[Held],
        part: usize,
    ) -> Result<Place, Halt>
        requires running_stands { Stands self.old.states.now self.old.arcs.now self.old.used running }
        requires finished_stand { AllStand self.old.states.now self.old.arcs.now self.old.used finished.now }
        requires parts_finished { (j : Join) → Has joins.now j → j.whole ≡ part → Among finished.now j.left × Among finished.now j.right }
        ensures goes { Went A.Alphabet.labels (join_operands (dones self.old.states.now self.old.arcs.now finished.now) joins.now part) (record { used = self.old.used; running = running }) self.old.states.now self.old.arcs.now self.new.states.now self.new.arcs.now (with_rows self.new.used result) }
        ensures same_states { self.new.states.ghost_name ≡ self.old.states.ghost_name }
        ensures same_arcs { self.new.arcs.ghost_name ≡ self.old.arcs.ghost_name }
    {
        let mut met = running;
        for join in joins {
            met = self.meet_join(met, *join, finished, part)?;
        }
        Ok(met)
    }

    // Meets the running result with everything that is asked of the part.
    fn meet_all(
        &mut self,
        running: Place,
        patterns: &[Held],
        joins: &[Join],
        finished: &[Held],
        part: usize,
    ) -> Result<Place, Halt>
        requires running_stands { Stands self.old.states.now self.old.arcs.now self.old.used running }
        requires patterns_stand { AllStand self.old.states.now self.old.arcs.now self.old.used patterns.now }
        requires finished_stand { AllStand self.old.states.now self.old.arcs.now self.old.used finished.now }
        requires parts_finished { (j : Join) → Has joins.now j → j.whole ≡ part → Among finished.now j.left × Among finished.now j.right }
        ensures goes { Went A.Alphabet.labels (pattern_operands (map (read self.old.states.now self.old.arcs.now) patterns.now) part ++ join_operands (dones self.old.states.now self.old.arcs.now finished.now) joins.now part) (record { used = self.old.used; running = running }) self.old.states.now self.old.arcs.now self.new.states.now self.new.arcs.now (with_rows self.new.used result) }
        ensures same_states { self.new.states.ghost_name ≡ self.old.states.ghost_name }
        ensures same_arcs { self.new.arcs.ghost_name ≡ self.old.arcs.ghost_name }
    {
        let met = self.meet_patterns(running, patterns, part)?;
        self.meet_joins(met, joins, finished, part)
    }

    // The final result of a part.
    fn build_part(
        &mut self,
        patterns: &[Held],
        joins: &[Join],
        finished: &[Held],
        part: usize,
    ) -> Result<Place, Halt>
        requires patterns_stand { AllStand self.old.states.now self.old.arcs.now self.old.used patterns.now }
        requires finished_stand { AllStand self.old.states.now self.old.arcs.now self.old.used finished.now }
        requires parts_finished { (j : Join) → Has joins.now j → j.whole ≡ part → Among finished.now j.left × Among finished.now j.right }
        ensures builds { PartBuilt A.Alphabet.labels (pattern_operands (map (read self.old.states.now self.old.arcs.now) patterns.now) part ++ join_operands (dones self.old.states.now self.old.arcs.now finished.now) joins.now part) self.old.used self.old.states.now self.old.arcs.now self.new.states.now self.new.arcs.now (with_rows self.new.used result) }
        ensures same_states { self.new.states.ghost_name ≡ self.old.states.ghost_name }
        ensures same_arcs { self.new.arcs.ghost_name ≡ self.old.arcs.ghost_name }
    {
        let running = self.all_words()?;
        self.meet_all(running, patterns, joins, finished, part)
    }

    // The final results of all parts, part by part, each with the place where it lies.
    pub fn finish_all(&mut self, sheet: &Sheet) -> Result<ArrayVec<Held, MAX_PARTS>, Verdict>
        requires whole { Whole (view sheet.now).patterns (view sheet.now).held self.old.states.now self.old.arcs.now }
        requires held_in_use { self.old.used ≡ (view sheet.now).held }
        ensures ends { Ends A.Alphabet.labels (view sheet.now) self.old.states.now self.old.arcs.now self.new.states.now self.new.arcs.now self.new.used result }
        ensures same_states { self.new.states.ghost_name ≡ self.old.states.ghost_name }
        ensures same_arcs { self.new.arcs.ghost_name ≡ self.old.arcs.ghost_name }
    {
        let parts = sheet.counts().parts;
        let patterns = sheet.patterns();
        let joins = sheet.joins();
        let mut finished = ArrayVec::new();
        while let Some(part) = next(parts, joins, &finished) {
            // two arms: with `map_err` and `?` the place would need a name of its own
            match self.build_part(patterns, joins, &finished, part) {
                Ok(place) => finished.push(Held { part, place }),
                Err(halt) => return Err(halt.at(part)),
            }
        }
        Ok(finished)
    }
}

// Builds the final results of all parts behind the held rows. Answers the rows in use then, and where the results lie.
pub fn build_all<A: Alphabet>(
    sheet: &Sheet,
    states: &mut [State],
    arcs: &mut [Arc<A::Label>],
) -> (Rows, Result<ArrayVec<Held, MAX_PARTS>, Verdict>)
    requires whole { Whole (view sheet.now).patterns (view sheet.now).held states.old arcs.old }
    ensures ends { Ends A.Alphabet.labels (view sheet.now) states.old arcs.old states.new arcs.new result.0 result.1 }
{
    let mut tables = Tables::<A>::new(states, arcs, sheet.counts().held);
    let ended = tables.finish_all(sheet);
    (tables.used, ended)
}
