// The concatenation of two automata: the arcs of the first into accepting states also lead on into the second.
ghost use Rattle.std.specs.Prelude.{◌≡◌, ◌<◌, ◌↔◌, map, length};
ghost use Rattle.automaton.specs.Automaton.{Accepts, Inside, Word};
ghost use Rattle.build.specs.Concats.{Side, Link, concats, concat_of, InTurn, ConcatSizes, nullable, kept_row, moved, begun, led_to, led_on, state_rows, arc_rows};
ghost use Rattle.build.specs.Emitted.{Fits};
ghost use Rattle.build.specs.Outcome.{Answer, Meant, Sizes};
ghost use Rattle.build.specs.Pairs.{Ready, left_of, right_of};
ghost use Rattle.build.specs.Tables.{Kept, at};
ghost use Rattle.build.specs.Tails.{SameRows, Appended};

use crate::input::{Input, Inputs};
use crate::operation::{self, Operation};
use crate::tail::{Full, Tail};
use crate::{Operands, Place, Rows, Stop};
use alphabet::Alphabet;
use automaton::{Arc, Marks, State};

impl<L: Copy> Input<'_, L> {
    // Whether some state is both initial and accepting.
    fn nullable(&self) -> bool
        ensures tells { result ≡ nullable self.now }
    {
        self.states()
            .iter()
            .any(|state| state.marks.initial && state.marks.accepting)
    }

    // Writes the states with those of their marks that are kept.
    fn put_states(&self, keep: Marks, out: &mut Tail<'_, State>) -> Result<(), Full>
        ensures appends { Appended out.old out.new (map (kept_row keep) self.now.states) result }
        ensures same_rows { SameRows out.old out.new }
    {
        for state in self.states() {
            out.push(State::from(Marks {
                initial: keep.initial & state.marks.initial,
                accepting: keep.accepting & state.marks.accepting,
            }))?;
        }
        Ok(())
    }

    // Copies the arcs, whose states now lie so much further on. The bound is that of `state_count`.
    fn put_arcs(&self, offset: usize, out: &mut Tail<'_, Arc<L>>) -> Result<(), Full>
        requires numbered { offset < 9223372036854775808 }
        ensures appends { Appended out.old out.new (map (moved offset) self.now.arcs) result }
        ensures same_rows { SameRows out.old out.new }
    {
        for arc in self.arcs() {
            out.push(Arc {
                from: offset + arc.from,
                label: arc.label,
                to: offset + arc.to,
            })?;
        }
        Ok(())
    }
}

impl<A: Alphabet> Inputs<'_, A> {
    // Writes the states of the first, none of them accepting, and behind them those of the second, initial only if
    // the first accepts the empty word.
    fn put_states(&self, out: &mut Tail<'_, State>) -> Result<(), Full>
        ensures appends { Appended out.old out.new (state_rows self.now.left self.now.right) result }
        ensures same_rows { SameRows out.old out.new }
    {
        let begins = Marks {
            initial: true,
            accepting: false,
        };
        let ends = Marks {
            initial: self.left.nullable(),
            accepting: true,
        };
        self.left.put_states(begins, out)?;
        self.right.put_states(ends, out)
    }

    // Leads an arc of the first on to each initial state of the second.
    fn lead_on_from(
        &self,
        arc: &Arc<A::Label>,
        out: &mut Tail<'_, Arc<A::Label>>,
    ) -> Result<(), Full>
        ensures appends { Appended out.old out.new (led_to (length self.now.left.states) (begun self.now.right) arc.now) result }
        ensures same_rows { SameRows out.old out.new }
    {
        let offset = self.left.state_count();
        for (q, state) in self.right.states().iter().enumerate() {
            if state.marks.initial {
                out.push(Arc {
                    to: offset + q,
                    ..*arc
                })?;
            }
        }
        Ok(())
    }

    // Leads on every arc of the first that enters an accepting state.
    fn lead_on(&self, out: &mut Tail<'_, Arc<A::Label>>) -> Result<(), Full>
        ensures appends { Appended out.old out.new (led_on self.now.left self.now.right) result }
        ensures same_rows { SameRows out.old out.new }
    {
        for arc in self.left.arcs() {
            if self.left.marks(arc.to).accepting {
                self.lead_on_from(arc, out)?;
            }
        }
        Ok(())
    }

    // Writes the arcs of both, and those that lead on.
    fn put_arcs(&self, out: &mut Tail<'_, Arc<A::Label>>) -> Result<(), Full>
        ensures appends { Appended out.old out.new (arc_rows self.now.left self.now.right) result }
        ensures same_rows { SameRows out.old out.new }
    {
        self.left.put_arcs(0, out)?;
        self.right.put_arcs(self.left.state_count(), out)?;
        self.lead_on(out)
    }
}

// The concatenation, as an operation on two automata.
struct Concatenation;

impl<A: Alphabet> Operation<A> for Concatenation {
    ghost Node = { Side };

    ghost Edge = { Link };

    ghost builds = { concats A.Alphabet.labels };

    fn write(
        inputs: &Inputs<'_, A>,
        states: &mut [State],
        arcs: &mut [Arc<A::Label>],
    ) -> Result<Rows, Stop> {
        // counted first: of states that do not fit none is written
        if inputs.left.state_count() + inputs.right.state_count() > states.len() {
            return Err(Stop::StatesFull);
        }
        let mut states = Tail::new(states);
        inputs
            .put_states(&mut states)
            .map_err(|_| Stop::StatesFull)?;
        let mut arcs = Tail::new(arcs);
        inputs.put_arcs(&mut arcs).map_err(|_| Stop::ArcsFull)?;
        Ok(Rows {
            states: states.written().len(),
            arcs: arcs.written().len(),
        })
    }
}

// The concatenation of the two operands, built behind the rows in use.
pub fn concat<A: Alphabet>(
    states: &mut [State],
    arcs: &mut [Arc<A::Label>],
    job: Operands,
) -> Result<Place, Stop>
    ensures answers { Answer (Ready job states.old arcs.old) A.Alphabet.labels (concat_of A.Alphabet.labels job states.old arcs.old)
        job.used states.new arcs.new result }
    ensures accepts_in_turn { Meant result (λ p. (w : Word) → Accepts A.Alphabet.labels.admits (at states.new arcs.new p) w
        ↔ InTurn A.Alphabet.labels.admits (left_of job states.old arcs.old) (right_of job states.old arcs.old) w) }
    ensures counted_sizes { Meant result (λ p. Sizes (concat_of A.Alphabet.labels job states.old arcs.old) p.count) }
    ensures sizes { Meant result (λ p. ConcatSizes (left_of job states.old arcs.old) (right_of job states.old arcs.old) p.count) }
    ensures keeps_states { Kept job.used.states states.old states.new }
    ensures keeps_arcs { Kept job.used.arcs arcs.old arcs.new }
{
    operation::build::<A, Concatenation>(states, arcs, job)
}
