use crate::helpers::{after, check_told, command};
use record::closing_book::ClosingBook;
use record::command::Command;
use record::kitty::Kitty;
use record::pair::Pair;
use record::record::Record;
use record::rounds::Rounds;
use std::test::Fail;

type Kitties = Pair<Kitty, Kitty>;

type Club = Pair<Kitty, ClosingBook<Rounds>>;

#[test]
fn even_subjects_go_left_and_odd_ones_right(rt: HostRuntime) -> Result<(), Fail> {
    let cases: [(&[Command], &[u32]); 4] = [
        (&[], &[0, 0]),
        (&[command(1, 0, 0, 5)], &[5, 0]),
        (&[command(1, 1, 0, 5)], &[0, 5]),
        // subjects 2 and 3 are subject 1 on their sides, which a kitty has not
        (
            &[
                command(1, 0, 0, 9),
                command(1, 2, 0, 5),
                command(1, 3, 0, 5),
                command(2, 0, 0, 4),
            ],
            &[5, 0],
        ),
    ];
    check_told::<Kitties>(&rt, rt.alloc(), &cases)
}

#[test]
fn two_sides_never_conflict(rt: HostRuntime) {
    let draw_left = command(2, 0, 0, 5);
    let draw_right = command(2, 1, 0, 5);
    let nowhere = command(2, 2, 0, 5);
    assert!(rt; <Kitties as Record>::is_lawful(draw_right));
    assert!(rt; !<Kitties as Record>::is_lawful(nowhere));
    assert!(rt; !<Kitties as Record>::in_conflict(draw_left, draw_right));
    assert!(rt; !<Kitties as Record>::in_conflict(draw_right, draw_left));
    assert!(rt; <Kitties as Record>::in_conflict(draw_left, draw_left));
    assert!(rt; <Kitties as Record>::in_conflict(draw_right, draw_right));
    assert!(rt; <Kitties as Record>::in_conflict(draw_left, nowhere));
}

// Subject 2 is player 1 on the left, and subject 1 the kitty on the right.
#[test]
fn each_side_sees_the_subject_halved(rt: HostRuntime) -> Result<(), Fail> {
    let commands = [command(1, 2, 100, 50), command(1, 1, 0, 50)];
    let told = after::<Pair<Rounds, Kitty>>(&commands).tell(rt.alloc())?;
    assert!(rt; told.len() == 329);
    assert_eq!(rt; told[0], 0);
    assert_eq!(rt; &told[41..45], [1, 100, 10_050, 0].as_slice());
    assert_eq!(rt; told[328], 50);
    Ok(())
}

// Player 3 of the right is subject 7 of the pair; the book is turned by subject 1.
#[test]
fn a_kitty_beside_a_closing_book_over_rounds(rt: HostRuntime) -> Result<(), Fail> {
    let commands = [
        command(1, 0, 0, 50),
        command(1, 7, 100, -4),
        command(255, 1, 0, 0),
        command(1, 7, 101, 6),
    ];
    let told = after::<Club>(&commands).tell(rt.alloc())?;
    assert!(rt; told.len() == 330);
    assert_eq!(rt; told[0], 50);
    assert_eq!(rt; told[1], 1);
    let card = 2 + 3 * 41;
    assert_eq!(rt; &told[card..card + 5], [1, 100, 9_996, 0, 0].as_slice());
    Ok(())
}
