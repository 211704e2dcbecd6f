// What the examples share.
use std::alloc::Global;
use std::process::Abort;
use std::test::Fail;
use transcript::transcript;

// Each row: an input, and the text that is printed for it.
pub(crate) fn check_texts(
    rt: &impl Abort,
    heap: Global,
    cases: &[(&[u8], &str)],
) -> Result<(), Fail> {
    for (input, want) in cases {
        let text = transcript(heap, input)?;
        assert_eq!(rt; text.as_str(), *want);
    }
    Ok(())
}
