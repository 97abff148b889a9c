// Expected values: by hand from "Words decoded" in docs/FORMATS.md.
use std::test::Fail;
use word_text::parse;

// A word has fourteen digits. A case has no way to give a word without any.
#[test]
fn reads_no_word_in_nothing(rt: HostRuntime) -> Result<(), Fail> {
    assert_eq!(rt; parse(b""), None);
    Ok(())
}
