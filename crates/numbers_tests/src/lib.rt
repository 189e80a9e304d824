#![tactic(auto)]

// Sets of numbers on small tables.
#[cfg(test)]
mod tests {
    use numbers::NumberSet;

    // The ends of words, and of the whole set.
    const EDGES: [usize; 9] = [0, 1, 62, 63, 64, 127, 128, 448, 511];

    fn set_of(numbers: &[usize]) -> NumberSet {
        let mut set = NumberSet::new();
        for n in numbers {
            let _ = set.insert(*n);
        }
        set
    }

    #[test]
    fn elements(rt: HostRuntime) {
        let mut set = set_of(&EDGES);
        assert_eq!(rt; set.len(), 9);
        assert!(rt; !set.insert(NumberSet::LIMIT));
        assert!(rt; !set.contains(NumberSet::LIMIT));
        for n in EDGES {
            assert!(rt; set.contains(n));
            set.remove(n);
            assert!(rt; !set.contains(n));
        }
        assert!(rt; set.is_empty());
    }

    #[test]
    fn in_rising_order(rt: HostRuntime) {
        let set = set_of(&[511, 64, 63, 0, 128, 62, 448, 1, 127]);
        let mut members = set.iter();
        for n in EDGES {
            assert_eq!(rt; set.next(n), Some(n));
            assert_eq!(rt; members.next(), Some(n));
        }
        assert_eq!(rt; members.next(), None);
        assert_eq!(rt; set.next(129), Some(448));
        assert_eq!(rt; set.next(512), None);
    }

    #[test]
    fn two_sets(rt: HostRuntime) {
        let low = NumberSet::below(100);
        let mut edges = set_of(&EDGES);
        assert_eq!(rt; low.intersection(&edges).len(), 5);
        assert_eq!(rt; edges.difference(&low).next(0), Some(127));
        assert_eq!(rt; low.union(&edges).len(), 104);
        assert!(rt; edges.absorb(&low));
        assert!(rt; !edges.absorb(&low));
        assert_eq!(rt; edges.len(), 104);
        assert_eq!(rt; NumberSet::below(1000).len(), 512);
    }

    #[test]
    fn by_a_test(rt: HostRuntime) {
        let even = NumberSet::of(100, |n| n % 2 == 0);
        assert_eq!(rt; even.len(), 50);
        assert_eq!(rt; even.next(1), Some(2));
        assert_eq!(rt; NumberSet::of(1000, |_| true), NumberSet::below(512));
        assert_eq!(rt; NumberSet::default(), NumberSet::new());
        let mut sum = 0usize;
        for n in &NumberSet::below(4) {
            sum = sum.wrapping_add(n);
        }
        assert_eq!(rt; sum, 6);
    }
}
