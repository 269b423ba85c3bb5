// Examples of what the alphabets, the tables, the fixed texts, the builds and the sheets answer.
#![tactic(auto)]

#[cfg(test)]
mod builds;
#[cfg(test)]
mod rows;
#[cfg(test)]
mod sheets;
#[cfg(test)]
mod solving;

#[cfg(test)]
mod labels {
    use alphabet::modem::Modem;
    use alphabet::text::Text;
    use alphabet::{Alphabet, RangedAlphabet};

    #[test]
    fn text_range(rt: HostRuntime) {
        let a_to_b = Text::range(65, 66);
        assert!(rt; Text::admits(&a_to_b, 65));
        assert!(rt; Text::admits(&a_to_b, 66));
        assert!(rt; !Text::admits(&a_to_b, 67));
        let past = Text::range(196_607, 4_000_000_000);
        assert!(rt; Text::admits(&past, 196_607));
        assert!(rt; !Text::admits(&past, 196_608));
        let none = Text::range(66, 65);
        assert!(rt; !Text::admits(&none, 65));
        assert!(rt; !Text::admits(&none, 66));
    }

    #[test]
    fn text_meet(rt: HostRuntime) {
        let both = Text::meet(&Text::range(65, 80), &Text::range(70, 90));
        assert!(rt; !Text::admits(&both, 69));
        assert!(rt; Text::admits(&both, 70));
        assert!(rt; Text::admits(&both, 80));
        assert!(rt; !Text::admits(&both, 81));
    }

    #[test]
    fn text_first(rt: HostRuntime) {
        assert_eq!(rt; Text::first(&Text::full()), Some(0));
        assert_eq!(rt; Text::first(&Text::range(65, 66)), Some(65));
        assert_eq!(rt; Text::first(&Text::range(66, 65)), None);
        assert_eq!(rt; Text::first(&Text::range(196_608, 196_609)), None);
    }

    #[test]
    fn modem_range(rt: HostRuntime) {
        assert!(rt; Modem::admits(&Modem::full(), 127));
        assert!(rt; !Modem::admits(&Modem::full(), 128));
        let past = Modem::range(100, 500);
        assert!(rt; !Modem::admits(&past, 99));
        assert!(rt; Modem::admits(&past, 127));
        assert!(rt; !Modem::admits(&past, 128));
        let none = Modem::range(101, 100);
        assert!(rt; !Modem::admits(&none, 100));
        assert!(rt; !Modem::admits(&none, 101));
    }

    #[test]
    fn modem_meet(rt: HostRuntime) {
        let digits = Modem::range(48, 57);
        let both = Modem::meet(&digits, &Modem::range(50, 90));
        assert!(rt; !Modem::admits(&both, 49));
        assert!(rt; Modem::admits(&both, 57));
        assert!(rt; !Modem::admits(&both, 58));
        assert_eq!(rt; Modem::first(&both), Some(50));
        assert_eq!(rt; Modem::first(&Modem::full()), Some(0));
        assert_eq!(rt;
            Modem::first(&Modem::meet(&digits, &Modem::range(58, 90))),
            None
        );
    }
}

#[cfg(test)]
mod patterns {
    use crate::rows::{arc, state};
    use alphabet::modem::Modem;
    use alphabet::text::{Text, TextLabel};
    use alphabet::{Alphabet, RangedAlphabet};
    use automaton::{Arc, State};
    use giver::accepts::accepts;
    use giver::fixed::FixedText;
    use giver::table::Table;
    use giver::{Giver, Refusal};

    // A digit, then anything: the rows of the weir's wait, which a program keeps to itself.
    #[test]
    fn table_accepts(rt: HostRuntime) {
        let table: Table<'_, Modem> = Table {
            states: &[state(true, false), state(false, true)],
            arcs: &[arc(0, Modem::range(48, 57), 1), arc(1, Modem::full(), 1)],
        };
        let version = [52, 46, 50, 49];
        assert_eq!(rt; accepts(&table, &version), Ok(true));
        assert_eq!(rt; accepts(&table, &[]), Ok(false));
        let marked = [35, 52, 46, 50, 49];
        assert_eq!(rt; accepts(&table, &marked), Ok(false));
        assert_eq!(rt; accepts(&table, &[52, 128]), Ok(false));
    }

    #[test]
    fn table_tells_past_its_end(rt: HostRuntime) {
        let table: Table<'_, Text> = Table {
            states: &[state(true, true)],
            arcs: &[on_a(0, 0)],
        };
        // field by field, so that each value can be seen
        let marks = table.marks(99);
        assert!(rt; !marks.initial);
        assert!(rt; !marks.accepting);
        let arc = table.arc(99);
        assert_eq!(rt; arc.from, 0);
        assert_eq!(rt; arc.to, 0);
        assert_eq!(rt; arc.label.lo, 0);
        assert_eq!(rt; arc.label.hi, 196_607);
    }

    fn fixed_accepts<A: RangedAlphabet>(text: &[u32], word: &[u32]) -> Result<bool, Refusal> {
        accepts::<A, FixedText<'_>>(&FixedText::new::<A>(text), word)
    }

    #[test]
    fn fixed_text_accepts_its_word(rt: HostRuntime) {
        assert_eq!(rt; fixed_accepts::<Text>(&[65, 66], &[65, 66]), Ok(true));
        assert_eq!(rt; fixed_accepts::<Text>(&[65, 66], &[65]), Ok(false));
        assert_eq!(rt; fixed_accepts::<Text>(&[65, 66], &[65, 67]), Ok(false));
        assert_eq!(rt; fixed_accepts::<Text>(&[65, 66], &[65, 66, 66]), Ok(false));
        assert_eq!(rt; fixed_accepts::<Text>(&[], &[]), Ok(true));
        assert_eq!(rt; fixed_accepts::<Text>(&[], &[65]), Ok(false));
        // a letter that the alphabet lacks
        assert_eq!(rt; fixed_accepts::<Modem>(&[65, 200], &[65, 200]), Ok(false));
        assert_eq!(rt; fixed_accepts::<Modem>(&[65, 200], &[65]), Ok(false));
    }

    fn on_a(from: usize, to: usize) -> Arc<TextLabel> {
        arc(from, Text::range(65, 65), to)
    }

    // The number of the refusal, since the numbers are promised, and 0 where there is none.
    fn refusal<'a>(states: &'a [State], arcs: &'a [Arc<TextLabel>]) -> u32 {
        let table: Table<'a, Text> = Table { states, arcs };
        accepts(&table, &[65]).err().map_or(0, Refusal::number)
    }

    #[test]
    fn arcs_outside_are_refused(rt: HostRuntime) {
        let states = [state(true, true); 256];
        assert_eq!(rt; refusal(&states, &[on_a(255, 255)]), 0);
        assert_eq!(rt; refusal(&states, &[on_a(0, 0), on_a(0, 256)]), 4);
        assert_eq!(rt; refusal(&states, &[on_a(256, 0), on_a(0, 0)]), 4);
        assert_eq!(rt; refusal(&[], &[on_a(0, 0)]), 4);
    }

    // Size is looked at before the arcs.
    #[test]
    fn large_tables_are_refused(rt: HostRuntime) {
        let states = [state(true, true); 257];
        let inside = [on_a(0, 1); 4097];
        let outside = [on_a(0, 257); 4097];
        assert_eq!(rt; refusal(&states[0..256], &inside[0..4096]), 0);
        assert_eq!(rt; refusal(&states[0..256], &outside[0..4096]), 4);
        assert_eq!(rt; refusal(&states, &[]), 3);
        assert_eq!(rt; refusal(&states, &outside[0..1]), 3);
        assert_eq!(rt; refusal(&states[0..256], &inside), 3);
        assert_eq!(rt; refusal(&states[0..256], &outside), 3);
    }
}
