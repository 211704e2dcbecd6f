use chooser::chooser::Chooser;
use chooser::lowest_of::LowestOf;
use chooser::refusal::Refusal;
use std::test::Fail;

// Each row is a stage, a node and the number of the refusal, if the proposal is refused.
#[test]
fn the_first_cause_is_answered(rt: HostRuntime) -> Result<(), Fail> {
    let cases = [
        (0, 7, Some(31)),
        (33, 255, Some(31)),
        (4_294_967_295, 0, Some(31)),
        (1, 7, Some(32)),
        (32, 255, Some(32)),
        (1, 6, None),
        (1, 6, Some(33)),
        (0, 6, Some(31)),
        (32, 6, None),
        (1, 0, None),
        (1, 0, Some(33)),
    ];
    let mut chooser = LowestOf::new(3)?;
    for (stage, node, number) in cases {
        let refused = chooser.propose(stage, node, (1, 1)).err();
        assert_eq!(rt; refused.map(|refusal| refusal.number()), number);
    }
    assert_eq!(rt; chooser.count(1), Ok(2));
    assert_eq!(rt; chooser.count(32), Ok(1));
    Ok(())
}

#[test]
fn questions_are_refused_for_the_stage_alone(rt: HostRuntime) -> Result<(), Fail> {
    let chooser = LowestOf::new(1)?;
    assert_eq!(rt; chooser.count(0), Err(Refusal::NoSuchStage));
    assert_eq!(rt; chooser.count(33), Err(Refusal::NoSuchStage));
    assert_eq!(rt; chooser.decision(0), Err(Refusal::NoSuchStage));
    assert_eq!(rt; chooser.decision(33), Err(Refusal::NoSuchStage));
    assert_eq!(rt; chooser.decision(32), Ok(None));
    Ok(())
}
