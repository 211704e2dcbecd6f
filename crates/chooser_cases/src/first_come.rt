use chooser::chooser::Chooser;
use chooser::first_come::FirstCome;

#[test]
fn the_first_proposal_is_decided_and_kept(rt: HostRuntime) {
    let mut chooser = FirstCome::new();
    assert_eq!(rt; chooser.need(), 1);
    assert_eq!(rt; chooser.decision(4), Ok(None));
    assert_eq!(rt; chooser.propose(4, 6, (1, 2)), Ok(()));
    assert_eq!(rt; chooser.decision(4), Ok(Some((1, 2))));
    assert_eq!(rt; chooser.propose(4, 0, (4, 8)), Ok(()));
    assert_eq!(rt; chooser.decision(4), Ok(Some((1, 2))));
    assert_eq!(rt; chooser.count(4), Ok(2));
}

#[test]
fn stages_are_apart(rt: HostRuntime) {
    let mut chooser = FirstCome::new();
    for stage in 1..=32 {
        assert_eq!(rt; chooser.count(stage), Ok(0));
        assert_eq!(rt; chooser.propose(stage, 3, (u64::from(stage), 0)), Ok(()));
    }
    for stage in 1..=32 {
        assert_eq!(rt; chooser.count(stage), Ok(1));
        assert_eq!(rt; chooser.decision(stage), Ok(Some((u64::from(stage), 0))));
    }
}
