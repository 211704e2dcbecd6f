use crate::helpers::{after, check_conflicts, check_lawful, command};
use record::command::Command;
use record::record::Record;
use record::rounds::Rounds;
use std::test::Fail;

fn post(player: u16, day: u16, amount: i16) -> Command {
    command(1, player, day, amount)
}

fn adjust(player: u16, amount: i16) -> Command {
    command(2, player, 0, amount)
}

#[test]
fn later_days_first_and_lower_amounts_first(rt: HostRuntime) -> Result<(), Fail> {
    let commands = [
        post(2, 5, 7),
        post(2, 9, 3),
        post(2, 5, -7),
        post(2, 9, 3),
        post(2, 0, 999),
    ];
    let told = after::<Rounds>(&commands).tell(rt.alloc())?;
    assert!(rt; told.len() == 328);
    let card = 2 * 41;
    let want = [
        5, 9, 10_003, 9, 10_003, 5, 9_993, 5, 10_007, 0, 10_999, 0, 0,
    ];
    assert_eq!(rt; &told[card..card + 13], want.as_slice());
    assert_eq!(rt; told[0], 0);
    Ok(())
}

#[test]
fn the_twenty_first_pushes_out_the_last(rt: HostRuntime) -> Result<(), Fail> {
    let mut rounds = Rounds::new();
    for _ in 0..20 {
        assert!(rt; rounds.take(post(0, 100, 50)).is_ok());
    }
    let twenty = rounds.tell(rt.alloc())?;
    assert!(rt; rounds.take(post(0, 99, 50)).is_ok());
    assert_eq!(rt; rounds.tell(rt.alloc())?.as_slice(), twenty.as_slice());
    assert!(rt; rounds.take(post(0, 100, 40)).is_ok());
    let told = rounds.tell(rt.alloc())?;
    assert!(rt; told.len() == 328);
    assert_eq!(rt; &told[0..5], [20, 100, 10_040, 100, 10_050].as_slice());
    assert_eq!(rt; &told[39..42], [100, 10_050, 0].as_slice());
    Ok(())
}

// From 999, ninety steps of 100 reach 9,999; from -999 they reach -9,999.
#[test]
fn an_adjustment_stops_at_either_end(rt: HostRuntime) -> Result<(), Fail> {
    let mut rounds = after::<Rounds>(&[post(0, 1, 999), post(1, 1, -999)]);
    for _ in 0..91 {
        assert!(rt; rounds.take(adjust(0, 100)).is_ok());
        assert!(rt; rounds.take(adjust(1, -100)).is_ok());
    }
    let ends = rounds.tell(rt.alloc())?;
    assert!(rt; ends.len() == 328);
    assert_eq!(rt; &ends[0..3], [1, 1, 19_999].as_slice());
    assert_eq!(rt; &ends[41..44], [1, 1, 1].as_slice());
    assert!(rt; rounds.take(adjust(0, -100)).is_ok());
    let told = rounds.tell(rt.alloc())?;
    assert!(rt; told.len() == 328);
    assert_eq!(rt; told[2], 19_899);
    Ok(())
}

#[test]
fn lawful_within_the_limits(rt: HostRuntime) {
    let cases = [
        (post(0, 0, -999), true),
        (post(7, 65_535, 999), true),
        (post(8, 1, 1), false),
        (post(0, 1, 1_000), false),
        (post(0, 1, -1_000), false),
        (adjust(7, 100), true),
        (adjust(7, -100), true),
        (adjust(0, 101), false),
        (adjust(0, -101), false),
        (command(2, 0, 1, 5), false),
        (command(0, 0, 0, 0), false),
        (command(3, 0, 0, 0), false),
    ];
    check_lawful::<Rounds>(&rt, &cases);
}

#[test]
fn adjustments_conflict_on_one_player(rt: HostRuntime) {
    let cases = [
        (post(1, 5, 5), post(1, 5, 6), false),
        (post(1, 5, 5), adjust(1, 5), true),
        (adjust(1, 5), adjust(1, 5), true),
        (post(1, 5, 5), adjust(2, 5), false),
        (adjust(1, 5), adjust(2, 5), false),
        (post(1, 5, 5), post(8, 5, 5), true),
    ];
    check_conflicts::<Rounds>(&rt, &cases);
    let turned = cases.map(|(a, b, conflict)| (b, a, conflict));
    check_conflicts::<Rounds>(&rt, &turned);
}
