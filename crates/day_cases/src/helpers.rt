// What the examples share.
use report::report::report_of;
use std::alloc::Global;
use std::process::Abort;
use std::test::Fail;

// Each row: the bytes of a day, and the text that they get.
pub(crate) fn check_reports(
    rt: &impl Abort,
    heap: Global,
    cases: &[(&[u8], &str)],
) -> Result<(), Fail> {
    for (bytes, text) in cases {
        let got = report_of(heap, bytes)?;
        assert_eq!(rt; got.as_str(), *text);
    }
    Ok(())
}
