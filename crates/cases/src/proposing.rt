use chooser::chooser::Chooser;
use chooser::first_come::FirstCome;
use rows::letter::Letter;
use rows::row::{Check, Phase, Row};
use rows::size::RingSize;
use std::test::Fail;

// In a ring of four with a quorum of three, two of three checks have message 0 and one has message 1: more than half
// have message 0 alone.
#[test]
fn what_most_checks_have_does_not_conflict(rt: HostRuntime) -> Result<(), Fail> {
    let mut row = Row::new();
    row.received = 0b11;
    row.phase = Phase::Closing;
    for (sender, set) in [(0, 0b01), (1, 0b01), (2, 0b10)] {
        row.checks[usize::from(sender)] = Check { sender, set };
    }
    row.checked = 3;
    let mut chooser = FirstCome::new();
    row.propose(RingSize::new(4, 3)?, &mut chooser, 0)?;
    assert_eq!(rt; chooser.decision(1)?, Some((0b01, 0b10)));
    assert_eq!(rt; row.phase, Phase::Waiting);
    Ok(())
}

// In the same ring, a fourth check comes after these three: it is not kept. Counted, it would put message 1 too into two
// checks, and both messages would be nonconflicting.
#[test]
fn a_check_beyond_the_quorum_is_not_kept(rt: HostRuntime) -> Result<(), Fail> {
    let size = RingSize::new(4, 3)?;
    let mut row = Row::new();
    row.received = 0b11;
    row.phase = Phase::Closing;
    for (sender, set) in [(0, 0b01), (1, 0b01), (2, 0b10), (3, 0b10)] {
        row.take(size, Letter::check(sender, 1, set), &mut [0; 64], 0);
    }
    assert_eq!(rt; row.checked, 3);
    let mut chooser = FirstCome::new();
    row.propose(size, &mut chooser, 0)?;
    assert_eq!(rt; chooser.decision(1)?, Some((0b01, 0b10)));
    Ok(())
}

// A row that proposes while it still gathers goes on gathering: in a ring of one node, the acknowledgement that comes
// after that is heard, so message 0 is delivered early, to the first place of the sheet. When it is closed it has still
// proposed, also when it is closed again.
#[test]
fn a_row_that_proposed_ahead_still_gathers(rt: HostRuntime) -> Result<(), Fail> {
    let size = RingSize::new(1, 1)?;
    let mut row = Row::new();
    let mut sheets = [9; 64];
    row.take(size, Letter::check(0, 1, 0b1), &mut sheets, 0);
    row.propose(size, &mut FirstCome::new(), 0)?;
    row.take(size, Letter::acknowledgement(0, 1, 0b1), &mut sheets, 0);
    assert_eq!(rt; row.early, 0b1);
    assert_eq!(rt; sheets[0], 0);
    assert_eq!(rt; row.phase, Phase::Ahead);
    row.close();
    assert_eq!(rt; row.phase, Phase::Waiting);
    row.close();
    assert_eq!(rt; row.phase, Phase::Waiting);
    Ok(())
}
