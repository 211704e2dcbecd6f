use crate::helpers::{after, check_lawful, check_told, command};
use record::closing_book::ClosingBook;
use record::command::{Command, Unlawful};
use record::kitty::Kitty;
use record::record::Record;
use std::test::Fail;

type Book = ClosingBook<Kitty>;

fn open() -> Command {
    command(254, 0, 0, 0)
}

fn close() -> Command {
    command(255, 0, 0, 0)
}

#[test]
fn a_closed_book_leaves_the_list(rt: HostRuntime) -> Result<(), Fail> {
    let pay = command(1, 0, 0, 5);
    let cases: [(&[Command], &[u32]); 6] = [
        (&[], &[0, 0]),
        (&[pay], &[0, 5]),
        (&[pay, close()], &[1, 5]),
        (&[pay, close(), pay], &[1, 5]),
        (&[pay, close(), pay, open(), pay], &[0, 10]),
        (&[close(), close(), open(), open(), pay], &[0, 5]),
    ];
    check_told::<Book>(&rt, rt.alloc(), &cases)
}

#[test]
fn a_turn_is_lawful_with_zeros_alone(rt: HostRuntime) {
    let cases = [
        (open(), true),
        (close(), true),
        (command(254, 1, 0, 0), false),
        (command(254, 0, 1, 0), false),
        (command(254, 0, 0, 1), false),
        (command(255, 1, 0, 0), false),
        (command(255, 0, 1, 0), false),
        (command(255, 0, 0, 1), false),
        (command(255, 0, 0, -1), false),
        (command(1, 0, 0, 5), true),
        (command(1, 0, 0, 0), false),
        (command(253, 0, 0, 0), false),
    ];
    check_lawful::<Book>(&rt, &cases);
}

#[test]
fn a_closed_book_still_refuses(rt: HostRuntime) -> Result<(), Fail> {
    let mut book = after::<Book>(&[close()]);
    assert_eq!(rt; book.take(command(1, 0, 0, 0)), Err(Unlawful));
    assert_eq!(rt; book.take(command(254, 0, 0, 7)), Err(Unlawful));
    assert_eq!(rt; book.tell(rt.alloc())?.as_slice(), [1, 0].as_slice());
    Ok(())
}

#[test]
fn a_turn_conflicts_with_every_command(rt: HostRuntime) {
    let pay = command(1, 0, 0, 5);
    assert!(rt; <Book as Record>::in_conflict(open(), pay));
    assert!(rt; <Book as Record>::in_conflict(pay, close()));
    assert!(rt; <Book as Record>::in_conflict(close(), close()));
    assert!(rt; <Book as Record>::in_conflict(command(255, 9, 9, 9), pay));
    assert!(rt; !<Book as Record>::in_conflict(pay, pay));
}
