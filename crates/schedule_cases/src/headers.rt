use schedule::header::{ChooserKind, Header, RecordKind};
use schedule::reader::Reader;
use schedule::report::Layer;
use std::process::Abort;
use std::test::Fail;

// Checks that a header stands at the front, which ends at a place.
fn check_header(rt: &impl Abort, bytes: &[u8], header: Header, end: usize) -> Result<(), Fail> {
    let mut reader = Reader::new(bytes);
    assert_eq!(rt; reader.header()?, header);
    assert_eq!(rt; reader.place(), end);
    Ok(())
}

// The kinds of each, and the largest counts.
#[test]
fn headers_are_read(rt: HostRuntime) -> Result<(), Fail> {
    check_header(
        &rt,
        &[4, 3, 1, 1],
        Header {
            n: 4,
            q: 3,
            chooser: ChooserKind::FirstCome,
            record: RecordKind::Kitty,
        },
        4,
    )?;
    check_header(
        &rt,
        &[7, 0, 2, 2, 3, 0],
        Header {
            n: 7,
            q: 0,
            chooser: ChooserKind::LowestOf,
            record: RecordKind::Rounds,
        },
        4,
    )?;
    let largest = [0xFF, 0xFF, 0x03, 0x80, 0x01, 1, 3];
    check_header(
        &rt,
        &largest,
        Header {
            n: 65_535,
            q: 128,
            chooser: ChooserKind::FirstCome,
            record: RecordKind::Both,
        },
        7,
    )
}

// A fault of a header tells number, place and layers as one of an entry does, and leaves the reader at the start.
#[test]
fn headers_are_faulty(rt: HostRuntime) -> Result<(), Fail> {
    let number: &[Layer] = &[Layer::Number, Layer::Entry];
    let kind: &[Layer] = &[Layer::Entry];
    let cases: [(&[u8], u8, usize, &[Layer]); 11] = [
        (&[], 41, 0, number),
        (&[4, 0x80], 41, 1, number),
        (&[4, 3], 41, 2, number),
        (&[4, 3, 1], 41, 3, number),
        (&[0x80, 0x80, 0x04, 3, 1, 1], 42, 0, number),
        (&[4, 0x83, 0x00, 1, 1], 42, 1, number),
        (&[4, 3, 0x80, 0x02, 1], 42, 2, number),
        (&[4, 3, 1, 0x81, 0x00], 42, 3, number),
        (&[4, 3, 0, 1], 43, 2, kind),
        (&[4, 3, 3, 0x80], 43, 2, kind),
        (&[0x80, 0x01, 3, 2, 4], 43, 4, kind),
    ];
    for (bytes, want, place, layers) in cases {
        let mut reader = Reader::new(bytes);
        let fault = reader.header().err().ok_or("no fault")?;
        assert_eq!(rt; fault.number(), want);
        assert_eq!(rt; fault.place(), place);
        assert_eq!(rt; fault.layers(), layers);
        assert_eq!(rt; reader.place(), 0);
    }
    Ok(())
}
