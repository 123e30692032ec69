// What `show` answers where there is nothing to list.
use crate::show::{ShowFault, show};
use listing::ListFault;
use script_file::FileFault;
use std::fs;
use std::test::Fail;

#[test]
fn a_missing_file_is_unreadable(rt: HostRuntime) {
    let answer = show(&rt, "no_such_file.script");
    assert!(rt;
        matches!(answer, Err(ShowFault::Unreadable(_))),
        "{:?}",
        answer
    );
}

// Five of the six bytes of the three counts.
#[test]
fn a_file_cut_short_is_refused(rt: HostRuntime) -> Result<(), Fail> {
    fs::write(&rt, "cut.script", "\0\0\0\0\x01")?;
    let wanted = ListFault::Refused(FileFault::Cut(4));
    let answer = show(&rt, "cut.script");
    assert!(rt;
        matches!(answer, Err(ShowFault::Unlisted(fault)) if fault == wanted),
        "{:?}",
        answer
    );
    Ok(())
}
