use record::command::Command;
use schedule::entry::Entry;
use schedule::reader::Reader;
use std::test::Fail;

// The entry at the front, and the place after it.
fn first_entry(bytes: &[u8]) -> Result<(Entry<'_>, usize), Fail> {
    let mut reader = Reader::new(bytes);
    let entry = reader.entry()?;
    Ok((entry, reader.place()))
}

// Numbers at the edges of one, two and three groups.
#[test]
fn numbers_are_read(rt: HostRuntime) -> Result<(), Fail> {
    let cases: [(&[u8], u16, usize); 7] = [
        (&[2, 0x00], 0, 2),
        (&[2, 0x7F], 127, 2),
        (&[2, 0x80, 0x01], 128, 3),
        (&[2, 0xFF, 0x01], 255, 3),
        (&[2, 0xFF, 0x7F], 16_383, 3),
        (&[2, 0x80, 0x80, 0x01], 16_384, 4),
        (&[2, 0xFF, 0xFF, 0x03, 0x80], 65_535, 4),
    ];
    for (bytes, place, end) in cases {
        let (entry, after) = first_entry(bytes)?;
        assert_eq!(rt; entry, Entry::Receive { place });
        assert_eq!(rt; after, end);
    }
    Ok(())
}

// The four kinds of one number, and what follows them is left alone.
#[test]
fn short_entries_are_read(rt: HostRuntime) -> Result<(), Fail> {
    let cases: [(&[u8], Entry<'_>); 4] = [
        (&[2, 3, 9], Entry::Receive { place: 3 }),
        (&[3, 0, 9], Entry::Step { node: 0 }),
        (&[4, 1, 9], Entry::Crash { node: 1 }),
        (&[5, 7, 9], Entry::Lose { place: 7 }),
    ];
    for (bytes, want) in cases {
        let (entry, after) = first_entry(bytes)?;
        assert_eq!(rt; entry, want);
        assert_eq!(rt; after, 2);
    }
    Ok(())
}

// A broadcast by node 0 of verb 1, subject 0, day 0, amount 50, which is written as 32,818.
#[test]
fn broadcasts_are_read(rt: HostRuntime) -> Result<(), Fail> {
    let (entry, after) = first_entry(&[1, 0, 6, 1, 0, 0, 0xB2, 0x80, 0x02, 9])?;
    let command = Command {
        verb: 1,
        subject: 0,
        day: 0,
        amount: 50,
    };
    let body: &[u8] = &[1, 0, 0, 0xB2, 0x80, 0x02];
    assert_eq!(rt;
        entry,
        Entry::Broadcast {
            node: 0,
            command,
            body,
        }
    );
    assert_eq!(rt; after, 9);
    Ok(())
}

// The least numbers of a command, by the last node.
#[test]
fn least_command_is_read(rt: HostRuntime) -> Result<(), Fail> {
    let (entry, after) = first_entry(&[1, 0xFF, 0x01, 4, 0, 0, 0, 0])?;
    let command = Command {
        verb: 0,
        subject: 0,
        day: 0,
        amount: -32_768,
    };
    let body: &[u8] = &[0, 0, 0, 0];
    assert_eq!(rt;
        entry,
        Entry::Broadcast {
            node: 255,
            command,
            body,
        }
    );
    assert_eq!(rt; after, 8);
    Ok(())
}

// The greatest numbers of a command.
#[test]
fn greatest_command_is_read(rt: HostRuntime) -> Result<(), Fail> {
    let (entry, after) = first_entry(&[
        1, 0, 11, 0xFF, 0x01, 0xFF, 0xFF, 0x03, 0xFF, 0xFF, 0x03, 0xFF, 0xFF, 0x03,
    ])?;
    let command = Command {
        verb: 255,
        subject: 65_535,
        day: 65_535,
        amount: 32_767,
    };
    let body: &[u8] = &[
        0xFF, 0x01, 0xFF, 0xFF, 0x03, 0xFF, 0xFF, 0x03, 0xFF, 0xFF, 0x03,
    ];
    assert_eq!(rt;
        entry,
        Entry::Broadcast {
            node: 0,
            command,
            body,
        }
    );
    assert_eq!(rt; after, 14);
    Ok(())
}

// Entries are read one after the other, up to the end.
#[test]
fn entries_follow_one_another(rt: HostRuntime) {
    let mut reader = Reader::new(&[3, 0, 2, 0x80, 0x01]);
    assert_eq!(rt; reader.place(), 0);
    assert!(rt; !reader.is_done());
    assert!(rt; reader.entry().is_ok());
    assert_eq!(rt; reader.place(), 2);
    assert!(rt; !reader.is_done());
    assert!(rt; reader.entry().is_ok());
    assert_eq!(rt; reader.place(), 5);
    assert!(rt; reader.is_done());
}
