// What the examples share.
use record::command::Command;
use record::record::Record;
use std::alloc::Global;
use std::process::Abort;
use std::test::Fail;

pub(crate) fn command(verb: u8, subject: u16, day: u16, amount: i16) -> Command {
    Command {
        verb,
        subject,
        day,
        amount,
    }
}

// A new record once it has been given the commands in turn; unlawful ones leave it.
pub(crate) fn after<R: Record>(commands: &[Command]) -> R {
    let mut state = R::new();
    for command in commands {
        let _ = state.take(*command);
    }
    state
}

// Each row: commands, and the list that a record tells after them.
pub(crate) fn check_told<R: Record + Drop>(
    rt: &impl Abort,
    heap: Global,
    cases: &[(&[Command], &[u32])],
) -> Result<(), Fail> {
    for (commands, list) in cases {
        let told = after::<R>(commands).tell(heap)?;
        assert_eq!(rt; told.as_slice(), *list);
    }
    Ok(())
}

// Each row: a command, and whether it is lawful.
pub(crate) fn check_lawful<R: Record>(rt: &impl Abort, cases: &[(Command, bool)]) {
    for (given, lawful) in cases {
        assert_eq!(rt; R::is_lawful(*given), *lawful);
    }
}

// Each row: two commands, and whether the first conflicts with the second.
pub(crate) fn check_conflicts<R: Record>(rt: &impl Abort, cases: &[(Command, Command, bool)]) {
    for (a, b, conflict) in cases {
        assert_eq!(rt; R::in_conflict(*a, *b), *conflict);
    }
}
