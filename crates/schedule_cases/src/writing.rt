use record::command::Command;
use schedule::draft::Draft;
use schedule::entry::Entry;
use schedule::reader::Reader;
use schedule_write::refusal::WriteRefusal;
use schedule_write::write::write;
use std::test::Fail;

// Drafts and their bytes; past them the buffer keeps its 0xEE.
#[test]
fn entries_are_written(rt: HostRuntime) {
    let command = Command {
        verb: 1,
        subject: 0,
        day: 0,
        amount: 50,
    };
    let least = Command {
        verb: 0,
        subject: 0,
        day: 0,
        amount: -32_768,
    };
    let cases: [(Draft, &[u8]); 9] = [
        (Draft::Receive { place: 0 }, &[2, 0x00]),
        (Draft::Receive { place: 127 }, &[2, 0x7F]),
        (Draft::Receive { place: 128 }, &[2, 0x80, 0x01]),
        (Draft::Receive { place: 65_535 }, &[2, 0xFF, 0xFF, 0x03]),
        (Draft::Step { node: 0 }, &[3, 0]),
        (Draft::Crash { node: 255 }, &[4, 0xFF, 0x01]),
        (Draft::Lose { place: 16_384 }, &[5, 0x80, 0x80, 0x01]),
        (
            Draft::Broadcast { node: 0, command },
            &[1, 0, 6, 1, 0, 0, 0xB2, 0x80, 0x02],
        ),
        (
            Draft::Broadcast {
                node: 200,
                command: least,
            },
            &[1, 0xC8, 0x01, 4, 0, 0, 0, 0],
        ),
    ];
    for (draft, bytes) in cases {
        let mut buffer = [0xEE; 10];
        assert_eq!(rt; write(draft, &mut buffer), Ok(bytes.len()));
        for (i, byte) in buffer.iter().enumerate() {
            let want = bytes.get(i).copied().unwrap_or(0xEE);
            assert_eq!(rt; *byte, want);
        }
    }
}

// 42 comes before 46, and a refusal leaves the buffer as it was.
#[test]
fn drafts_are_refused(rt: HostRuntime) {
    let command = Command {
        verb: 1,
        subject: 0,
        day: 0,
        amount: 50,
    };
    let cases: [(Draft, WriteRefusal, u8); 8] = [
        (
            Draft::Broadcast { node: 256, command },
            WriteRefusal::NumberAboveLimit,
            42,
        ),
        (
            Draft::Receive { place: 65_536 },
            WriteRefusal::NumberAboveLimit,
            42,
        ),
        (
            Draft::Step { node: 256 },
            WriteRefusal::NumberAboveLimit,
            42,
        ),
        (
            Draft::Crash { node: 1_000 },
            WriteRefusal::NumberAboveLimit,
            42,
        ),
        (
            Draft::Lose { place: 65_536 },
            WriteRefusal::NumberAboveLimit,
            42,
        ),
        (
            Draft::Broadcast { node: 0, command },
            WriteRefusal::BufferTooShort,
            46,
        ),
        (
            Draft::Receive { place: 128 },
            WriteRefusal::BufferTooShort,
            46,
        ),
        (Draft::Crash { node: 255 }, WriteRefusal::BufferTooShort, 46),
    ];
    for (draft, refusal, number) in cases {
        let mut buffer = [0xEE; 2];
        assert_eq!(rt; write(draft, &mut buffer), Err(refusal));
        assert_eq!(rt; refusal.number(), number);
        assert_eq!(rt; buffer, [0xEE; 2]);
    }
}

// A buffer of exactly the length of a broadcast has room, and one byte less has none.
#[test]
fn room_is_exact(rt: HostRuntime) {
    let command = Command {
        verb: 1,
        subject: 0,
        day: 0,
        amount: 50,
    };
    let draft = Draft::Broadcast { node: 0, command };
    assert_eq!(rt; write(draft, &mut [0; 9]), Ok(9));
    assert_eq!(rt;
        write(draft, &mut [0; 8]),
        Err(WriteRefusal::BufferTooShort)
    );
}

// What is written reads back, and the reader then stands behind it.
#[test]
fn written_entries_read_back(rt: HostRuntime) -> Result<(), Fail> {
    let command = Command {
        verb: 255,
        subject: 16_384,
        day: 300,
        amount: -1,
    };
    let mut buffer = [0x80; 20];
    let size = write(Draft::Broadcast { node: 7, command }, &mut buffer);
    let mut reader = Reader::new(&buffer);
    assert_eq!(rt;
        reader.entry()?,
        Entry::Broadcast {
            node: 7,
            command,
            body: &buffer[3..13],
        }
    );
    assert_eq!(rt; size, Ok(reader.place()));
    Ok(())
}
