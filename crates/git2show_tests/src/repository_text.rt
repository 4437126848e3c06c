//! How a bad repository text is reported.
use git_repository::TextFault;
use std::test::Fail;

#[test]
fn faults_have_texts(rt: HostRuntime) -> Result<(), Fail> {
    assert_eq!(rt;
        TextFault::Bad { line: 3 }.to_string(rt.alloc())?.as_str(),
        "bad line 3"
    );
    assert_eq!(rt;
        TextFault::OutOfMemory.to_string(rt.alloc())?.as_str(),
        "OutOfMemory"
    );
    Ok(())
}
