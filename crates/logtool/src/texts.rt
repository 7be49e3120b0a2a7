// Tests of what the tool says of words and failures.
use crate::failure::Failure;
use crate::word_text::WordText;
use slab_log::Refusal;
use std::test::Fail;

#[test]
fn words(rt: HostRuntime) -> Result<(), Fail> {
    let heap = rt.alloc();
    let free = WordText(0x001E_8013).to_string(heap)?;
    assert_eq!(rt; free.as_str(), "free 20 from 30 (0x00000000001E8013)");
    let debug = WordText(0x8000_0000_0000_0000).to_string(heap)?;
    assert_eq!(rt;
        debug.as_str(),
        "debug action 0 pass 0 group 0 (0x8000000000000000)"
    );
    let kind = WordText(0xC000_0000_0000_0000).to_string(heap)?;
    assert_eq!(rt; kind.as_str(), "fault kind (0xC000000000000000)");
    Ok(())
}

#[test]
fn failures(rt: HostRuntime) -> Result<(), Fail> {
    let heap = rt.alloc();
    let header = Failure::Refused(Refusal::BadHeader).to_string(heap)?;
    assert_eq!(rt;
        header.as_str(),
        "refusal 11: the header is against the rule"
    );
    let short = Failure::ShortImage.to_string(heap)?;
    assert_eq!(rt;
        short.as_str(),
        "refusal 11: fewer bytes than the 16 of a header"
    );
    let usage = Failure::Usage.to_string(heap)?;
    assert_eq!(rt;
        usage.as_str(),
        "wrong arguments; logtool --help shows the commands"
    );
    Ok(())
}
