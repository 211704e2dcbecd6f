use crate::helpers::{after, check_conflicts, check_lawful, check_told, command};
use record::command::{Command, Unlawful};
use record::kitty::Kitty;
use record::record::Record;
use std::test::Fail;

fn pay(amount: i16) -> Command {
    command(1, 0, 0, amount)
}

fn draw(amount: i16) -> Command {
    command(2, 0, 0, amount)
}

#[test]
fn a_draw_needs_its_amount(rt: HostRuntime) -> Result<(), Fail> {
    let cases: [(&[Command], &[u32]); 7] = [
        (&[], &[0]),
        (&[pay(50), draw(50)], &[0]),
        (&[draw(50), pay(50)], &[50]),
        (&[pay(50), draw(80)], &[50]),
        (&[pay(50), draw(51)], &[50]),
        (&[pay(30_000), pay(30_000), draw(1)], &[59_999]),
        (&[pay(50), pay(30_001), command(3, 0, 0, 5)], &[50]),
    ];
    check_told::<Kitty>(&rt, rt.alloc(), &cases)
}

// 143,165 payments of 30,000 make 4,294,950,000; the next would pass the maximum.
#[test]
fn paying_stops_at_the_maximum(rt: HostRuntime) -> Result<(), Fail> {
    let mut kitty = Kitty::new();
    for _ in 0..143_165 {
        assert_eq!(rt; kitty.take(pay(30_000)), Ok(()));
    }
    assert_eq!(rt;
        kitty.tell(rt.alloc())?.as_slice(),
        [4_294_950_000].as_slice()
    );
    assert_eq!(rt; kitty.take(pay(17_295)), Ok(()));
    assert_eq!(rt;
        kitty.tell(rt.alloc())?.as_slice(),
        [4_294_967_295].as_slice()
    );
    assert_eq!(rt; kitty.take(pay(1)), Ok(()));
    assert_eq!(rt;
        kitty.tell(rt.alloc())?.as_slice(),
        [4_294_967_295].as_slice()
    );
    Ok(())
}

#[test]
fn lawful_within_the_limits(rt: HostRuntime) {
    let cases = [
        (pay(1), true),
        (pay(30_000), true),
        (draw(30_000), true),
        (pay(0), false),
        (pay(30_001), false),
        (draw(-1), false),
        (command(0, 0, 0, 5), false),
        (command(3, 0, 0, 5), false),
        (command(1, 1, 0, 5), false),
        (command(1, 0, 1, 5), false),
    ];
    check_lawful::<Kitty>(&rt, &cases);
}

#[test]
fn an_unlawful_command_gets_10(rt: HostRuntime) -> Result<(), Fail> {
    let mut kitty = after::<Kitty>(&[pay(7)]);
    assert_eq!(rt; kitty.take(pay(0)), Err(Unlawful));
    assert_eq!(rt; Unlawful.number(), 10);
    assert_eq!(rt; kitty.tell(rt.alloc())?.as_slice(), [7].as_slice());
    Ok(())
}

#[test]
fn only_draws_conflict(rt: HostRuntime) {
    let cases = [
        (pay(1), pay(1), false),
        (pay(1), pay(30_000), false),
        (pay(1), draw(1), true),
        (draw(1), pay(1), true),
        (draw(1), draw(1), true),
        (pay(1), pay(0), true),
        (pay(0), pay(1), true),
    ];
    check_conflicts::<Kitty>(&rt, &cases);
}
