#![tactic(auto)]

// Short sessions over a real store, with their answers worked out by hand from the rules.
use graph::Graph;
use graph::class::Class;
use replay::{Answer, Call, Granted, Merge, replay};
use session::Bank;

// An answer as one number: refusals by their own, granted 100, merged 101, together 102, apart 103, a move from 200 on.
// Numbers, since the tests keep the values that they had.
fn code_of(answer: Answer) -> usize {
    match answer {
        Ok(Granted::Done) => 100,
        Ok(Granted::Decided(Merge::Merged)) => 101,
        Ok(Granted::Decided(Merge::Together)) => 102,
        Ok(Granted::Decided(Merge::Apart)) => 103,
        Ok(Granted::Noted(m)) => m.saturating_add(200),
        Err(refusal) => usize::from(refusal.number()),
    }
}

// What each call is answered over this graph, where the values 32, 33 and 34 are of class 0 and there are two registers.
fn answered<G: Graph + Drop>(graph: G, calls: &[Call; 8]) -> [usize; 8] {
    let Ok(bank) = Bank::new(Class::Zero, 2) else {
        return [0; 8];
    };
    let mut classes = [None; 512];
    classes[32..35].fill(Some(Class::Zero));
    let mut answers = [Ok(Granted::Done); 8];
    let _back = replay(graph, bank, &classes, calls, &mut answers);
    answers.map(code_of)
}

#[cfg(test)]
mod tests {
    use super::*;
    use matrix::bit_matrix::BitMatrix;
    use std::test::Fail;

    // 32 - 33 - 34 is a path: it can be emptied, so nothing is pushed and every vertex gets a register.
    #[test]
    fn a_path(rt: HostRuntime) -> Result<(), Fail> {
        let mut memory = [0u8; 100];
        let mut graph = BitMatrix::try_open(40, &mut memory).map_err(|_| Fail::new("no room"))?;
        assert!(rt; graph.join(32, 33).is_ok());
        assert!(rt; graph.join(33, 34).is_ok());
        let calls = [
            Call::Note(32, 34),
            Call::Simplify(32),
            Call::Merge(0),
            Call::Simplify(34),
            Call::Push(32),
            Call::Simplify(32),
            Call::Colour,
            Call::Merge(0),
        ];
        assert_eq!(rt;
            answered(graph, &calls),
            [200, 17, 101, 14, 17, 100, 18, 17]
        );
        Ok(())
    }

    // 32, 33 and 34 joined to one another want three registers: one is pushed. Two registers are apart from the start.
    #[test]
    fn a_triangle(rt: HostRuntime) -> Result<(), Fail> {
        let mut memory = [0u8; 100];
        let mut graph = BitMatrix::try_open(40, &mut memory).map_err(|_| Fail::new("no room"))?;
        assert!(rt; graph.join(32, 33).is_ok());
        assert!(rt; graph.join(33, 34).is_ok());
        assert!(rt; graph.join(34, 32).is_ok());
        let calls = [
            Call::Simplify(32),
            Call::Push(33),
            Call::Simplify(32),
            Call::Simplify(34),
            Call::Colour,
            Call::Note(0, 1),
            Call::Merge(0),
            Call::Merge(1),
        ];
        assert_eq!(rt;
            answered(graph, &calls),
            [17, 100, 100, 100, 100, 200, 103, 13]
        );
        Ok(())
    }
}
