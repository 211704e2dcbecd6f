use chooser::chooser::Chooser;
use chooser::lowest_of::LowestOf;
use std::test::Fail;

// Of the arrivals 5, 1, 0 only the first two count, and 1 is the lower of them.
#[test]
fn the_lowest_of_the_first_two(rt: HostRuntime) -> Result<(), Fail> {
    let mut chooser = LowestOf::new(2)?;
    assert_eq!(rt; chooser.need(), 2);
    assert_eq!(rt; chooser.propose(1, 5, (50, 51)), Ok(()));
    assert_eq!(rt; chooser.decision(1), Ok(None));
    assert_eq!(rt; chooser.propose(1, 1, (10, 11)), Ok(()));
    assert_eq!(rt; chooser.decision(1), Ok(Some((10, 11))));
    assert_eq!(rt; chooser.propose(1, 0, (20, 21)), Ok(()));
    assert_eq!(rt; chooser.decision(1), Ok(Some((10, 11))));
    assert_eq!(rt; chooser.count(1), Ok(3));
    Ok(())
}

#[test]
fn all_seven_may_be_needed(rt: HostRuntime) -> Result<(), Fail> {
    let mut chooser = LowestOf::new(7)?;
    for node in 0..6 {
        assert_eq!(rt; chooser.propose(32, 6 - node, (u64::from(node), 0)), Ok(()));
        assert_eq!(rt; chooser.decision(32), Ok(None));
    }
    assert_eq!(rt; chooser.propose(32, 0, (9, 9)), Ok(()));
    assert_eq!(rt; chooser.decision(32), Ok(Some((9, 9))));
    Ok(())
}

#[test]
fn a_need_of_one_to_seven(rt: HostRuntime) {
    let cases = [
        (0, Some(34)),
        (1, None),
        (7, None),
        (8, Some(34)),
        (255, Some(34)),
    ];
    for (need, refusal) in cases {
        match LowestOf::new(need) {
            Ok(chooser) => {
                assert_eq!(rt; refusal, None);
                assert_eq!(rt; chooser.need(), need);
            }
            Err(cause) => assert_eq!(rt; refusal, Some(cause.number())),
        }
    }
}
