use schedule::fault::EntryFault;
use schedule::reader::Reader;
use schedule::report::Layer;
use std::process::Abort;
use std::test::Fail;

// The layers of a fault in a number, of one in a number of a command, of one in a command, and of an entry's own.
const NUMBER: [Layer; 2] = [Layer::Number, Layer::Entry];

const COMMAND_NUMBER: [Layer; 3] = [Layer::Number, Layer::Command, Layer::Entry];

const COMMAND: [Layer; 2] = [Layer::Command, Layer::Entry];

const ENTRY: [Layer; 1] = [Layer::Entry];

// The fault of the entry behind a step of node 0; the reader stays where that entry begins, which is place 2.
fn fault_behind_step(rt: &impl Abort, bytes: &[u8]) -> Result<EntryFault, Fail> {
    let mut reader = Reader::new(bytes);
    assert!(rt; reader.entry().is_ok());
    let read = reader.entry();
    assert_eq!(rt; reader.place(), 2);
    Ok(read.err().ok_or("no fault")?)
}

// Each row: bytes whose first entry is `03 00`, and the number, the place and the layers of the fault behind it.
fn check_faults(rt: &impl Abort, cases: &[(&[u8], u8, usize, &[Layer])]) -> Result<(), Fail> {
    for (bytes, number, place, layers) in cases {
        let fault = fault_behind_step(rt, bytes)?;
        assert_eq!(rt; fault.number(), *number);
        assert_eq!(rt; fault.place(), *place);
        assert_eq!(rt; fault.layers(), *layers);
    }
    Ok(())
}

// 41 outside a body: no byte ends the number.
#[test]
fn numbers_are_cut_short(rt: HostRuntime) -> Result<(), Fail> {
    check_faults(
        &rt,
        &[
            (&[3, 0], 41, 2, &NUMBER),
            (&[3, 0, 0x80], 41, 2, &NUMBER),
            (&[3, 0, 0x80, 0x80, 0x80, 0x80], 41, 2, &NUMBER),
            (&[3, 0, 1], 41, 3, &NUMBER),
            (&[3, 0, 1, 0], 41, 4, &NUMBER),
            (&[3, 0, 2], 41, 3, &NUMBER),
            (&[3, 0, 3, 0x80], 41, 3, &NUMBER),
            (&[3, 0, 4, 0xFF, 0xFF, 0xFF], 41, 3, &NUMBER),
            (&[3, 0, 5], 41, 3, &NUMBER),
        ],
    )
}

// 42 outside a body: the number ends, and is longer than need be or above its limit.
#[test]
fn numbers_are_unfit(rt: HostRuntime) -> Result<(), Fail> {
    check_faults(
        &rt,
        &[
            (&[3, 0, 0x80, 0x00], 42, 2, &NUMBER),
            (&[3, 0, 0x83, 0x00, 0], 42, 2, &NUMBER),
            (&[3, 0, 0x80, 0x80, 0x80, 0x80, 0x00], 42, 2, &NUMBER),
            (&[3, 0, 0x80, 0x02], 42, 2, &NUMBER),
            (&[3, 0, 1, 0x80, 0x02, 0], 42, 3, &NUMBER),
            (&[3, 0, 1, 0, 0x80, 0x80, 0x04], 42, 4, &NUMBER),
            (&[3, 0, 1, 0, 0x84, 0x00, 0, 0, 0, 0], 42, 4, &NUMBER),
            (&[3, 0, 2, 0x80, 0x80, 0x04], 42, 3, &NUMBER),
            (&[3, 0, 3, 0x80, 0x02], 42, 3, &NUMBER),
            (&[3, 0, 4, 0xFF, 0xFF, 0xFF, 0xFF, 0x01], 42, 3, &NUMBER),
            (&[3, 0, 5, 0xFF, 0xFF, 0x83, 0x00], 42, 3, &NUMBER),
        ],
    )
}

// 43: no entry has this number.
#[test]
fn kinds_are_unknown(rt: HostRuntime) -> Result<(), Fail> {
    check_faults(
        &rt,
        &[
            (&[3, 0, 0], 43, 2, &ENTRY),
            (&[3, 0, 6, 0x80], 43, 2, &ENTRY),
            (&[3, 0, 0xFF, 0x01], 43, 2, &ENTRY),
        ],
    )
}

// 44 of an entry: the body is longer than the input, whatever stands in it.
#[test]
fn bodies_are_too_long(rt: HostRuntime) -> Result<(), Fail> {
    check_faults(
        &rt,
        &[
            (&[3, 0, 1, 0, 1], 44, 5, &ENTRY),
            (&[3, 0, 1, 0, 5, 1, 0, 0, 0], 44, 5, &ENTRY),
            (&[3, 0, 1, 0, 0xFF, 0xFF, 0x03, 0x80, 0x00], 44, 7, &ENTRY),
        ],
    )
}

// 41 in a body: its end cuts a number, whatever follows it in the input.
#[test]
fn numbers_of_commands_are_cut_short(rt: HostRuntime) -> Result<(), Fail> {
    check_faults(
        &rt,
        &[
            (&[3, 0, 1, 0, 0, 1, 0, 0, 0], 41, 5, &COMMAND_NUMBER),
            (&[3, 0, 1, 0, 1, 0x80, 0x01], 41, 5, &COMMAND_NUMBER),
            (&[3, 0, 1, 0, 1, 1, 0, 0, 0], 41, 6, &COMMAND_NUMBER),
            (&[3, 0, 1, 0, 2, 1, 0, 0, 0], 41, 7, &COMMAND_NUMBER),
            (&[3, 0, 1, 0, 3, 1, 0, 0, 0], 41, 8, &COMMAND_NUMBER),
            (
                &[3, 0, 1, 0, 5, 1, 0, 0, 0x80, 0x80, 0x02],
                41,
                8,
                &COMMAND_NUMBER,
            ),
        ],
    )
}

// 42 in a body: a number ends there, and is longer than need be or above its limit.
#[test]
fn numbers_of_commands_are_unfit(rt: HostRuntime) -> Result<(), Fail> {
    check_faults(
        &rt,
        &[
            (
                &[3, 0, 1, 0, 5, 0x80, 0x02, 0, 0, 0],
                42,
                5,
                &COMMAND_NUMBER,
            ),
            (
                &[3, 0, 1, 0, 5, 1, 0x80, 0x00, 0, 0],
                42,
                6,
                &COMMAND_NUMBER,
            ),
            (
                &[3, 0, 1, 0, 6, 1, 0, 0x80, 0x80, 0x04, 0],
                42,
                7,
                &COMMAND_NUMBER,
            ),
            (
                &[3, 0, 1, 0, 6, 1, 0, 0, 0x80, 0x80, 0x04],
                42,
                8,
                &COMMAND_NUMBER,
            ),
        ],
    )
}

// 44 of a command: bytes are left in the body, and the first of them is the place.
#[test]
fn bytes_are_left(rt: HostRuntime) -> Result<(), Fail> {
    check_faults(
        &rt,
        &[
            (&[3, 0, 1, 0, 5, 1, 0, 0, 0, 9], 44, 9, &COMMAND),
            (
                &[3, 0, 1, 0, 8, 1, 0, 0, 0xB2, 0x80, 0x02, 0x80, 0x80],
                44,
                11,
                &COMMAND,
            ),
        ],
    )
}
