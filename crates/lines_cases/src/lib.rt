//! What sets of lines do on examples.
#![tactic(auto)]

#[cfg(test)]
mod tests {
    use lines::decline::Decline;
    use lines::first_come::FirstCome;
    use lines::ranked::Ranked;
    use lines::set::LineSet;

    #[test]
    fn first_come_takes_the_earliest(rt: HostRuntime) {
        let mut set = FirstCome::make(());
        assert_eq!(rt; set.add(3, 9), Ok(()));
        assert_eq!(rt; set.add(4, 8), Ok(()));
        assert_eq!(rt; set.add(3, 1), Ok(()));
        assert_eq!(rt; set.take(3), Ok(Some(9)));
        assert_eq!(rt; set.take(3), Ok(Some(1)));
        assert_eq!(rt; set.take(3), Ok(None));
        // Line 4 is untouched.
        assert_eq!(rt; set.is_empty(3), Ok(true));
        assert_eq!(rt; set.is_empty(4), Ok(false));
        assert_eq!(rt; set.take(4), Ok(Some(8)));
    }

    #[test]
    fn ranked_takes_the_highest(rt: HostRuntime) {
        let mut ranks = [0; 32];
        ranks[1] = 5;
        ranks[2] = 255;
        ranks[3] = 5;
        let mut set = Ranked::make(ranks);
        assert_eq!(rt; set.add(0, 3), Ok(()));
        assert_eq!(rt; set.add(0, 1), Ok(()));
        assert_eq!(rt; set.add(0, 2), Ok(()));
        assert_eq!(rt; set.take(0), Ok(Some(2)));
        // Threads 1 and 3 have one rank, and 3 came first.
        assert_eq!(rt; set.take(0), Ok(Some(1)));
        assert_eq!(rt; set.take(0), Ok(Some(3)));
        assert_eq!(rt; set.take(0), Ok(None));
    }

    #[test]
    fn limits(rt: HostRuntime) {
        assert_eq!(rt; FirstCome::limit(), 64);
        let mut set = FirstCome::make(());
        assert_eq!(rt; set.add(47, 63), Ok(()));
        assert_eq!(rt; set.add(47, 64), Err(Decline::NotServed));
        assert_eq!(rt; set.add(48, 0), Err(Decline::NoSuchLine));
        assert_eq!(rt; set.take(47), Ok(Some(63)));
        assert_eq!(rt; set.take(48), Err(Decline::NoSuchLine));
        assert_eq!(rt; set.is_empty(48), Err(Decline::NoSuchLine));
        assert_eq!(rt; Ranked::limit(), 32);
        let mut set = Ranked::make([0; 32]);
        assert_eq!(rt; set.add(47, 31), Ok(()));
        assert_eq!(rt; set.add(47, 32), Err(Decline::NotServed));
        assert_eq!(rt; set.take(48), Err(Decline::NoSuchLine));
        assert_eq!(rt; set.is_empty(48), Err(Decline::NoSuchLine));
        assert_eq!(rt; set.take(47), Ok(Some(31)));
    }

    // The number that a refusal is known by; 0 where there is none.
    fn refusal(answer: Result<(), Decline>) -> u8 {
        match answer {
            Ok(()) => 0,
            Err(decline) => u8::from(decline),
        }
    }

    #[test]
    fn refusals(rt: HostRuntime) {
        let mut set = FirstCome::make(());
        assert_eq!(rt; refusal(set.add(2, 7)), 0);
        assert_eq!(rt; refusal(set.add(48, 64)), 21);
        assert_eq!(rt; refusal(set.remove(48, 64)), 21);
        assert_eq!(rt; refusal(set.add(2, 64)), 22);
        assert_eq!(rt; refusal(set.remove(2, 64)), 22);
        assert_eq!(rt; refusal(set.add(2, 7)), 23);
        assert_eq!(rt; refusal(set.add(3, 7)), 23);
        assert_eq!(rt; refusal(set.remove(3, 7)), 24);
        assert_eq!(rt; refusal(set.remove(2, 8)), 24);
        // None of them altered the lines 2 and 3.
        assert_eq!(rt; set.is_empty(3), Ok(true));
        assert_eq!(rt; set.take(2), Ok(Some(7)));
        assert_eq!(rt; set.take(2), Ok(None));
    }

    #[test]
    fn remove_keeps_the_order(rt: HostRuntime) {
        let mut set = FirstCome::make(());
        assert_eq!(rt; set.add(5, 4), Ok(()));
        assert_eq!(rt; set.add(5, 2), Ok(()));
        assert_eq!(rt; set.add(5, 3), Ok(()));
        assert_eq!(rt; set.remove(5, 2), Ok(()));
        assert_eq!(rt; set.add(6, 2), Ok(()));
        assert_eq!(rt; set.take(5), Ok(Some(4)));
        assert_eq!(rt; set.take(5), Ok(Some(3)));
        assert_eq!(rt; set.take(6), Ok(Some(2)));
    }
}
