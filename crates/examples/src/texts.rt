// Listings by example; each text is written out by hand from the format.
use crate::files::ONE_FIELD;
use listing::{ListFault, text_of};
use script_file::FileFault;
use std::test::Fail;

const ONE_FIELD_TEXT: &str = "locals: 1
    0  int
labels: 0
nodes: 5
place    up   end  detail  number  kind
    0     0     5       0       0  block
    1     0     2       0       0    declaration of local 0
    2     0     5       0       0    expression statement
    3     2     5       0       0      assignment to local 0
    4     3     5       4       1        literal of int
read one whole: 77 bytes
";

#[test]
fn a_script_is_listed(rt: HostRuntime) -> Result<(), Fail> {
    let text = text_of(rt.alloc(), "one", ONE_FIELD)?;
    assert_eq!(rt; text.as_str(), ONE_FIELD_TEXT);
    Ok(())
}

// Two nodes that make no tree: an unknown kind whose parent is past the table, and a literal of no type with a long number.
const ODD: &[u8; 34] = b"\0\0\x02\0\x02\0\
    \x07\x09\x05\0\0\0\0\0\0\0\0\0\0\0\
    \0\x06\0\0\x09\0\0\0\0\0\0\0\0\x80";

const ODD_TEXT: &str = "locals: 0
labels: 2
nodes: 2
place    up   end  detail  number  kind
    0     5     0       9       0  kind 7
    1     0     9       6  -9223372036854775808    literal
read odd whole: 34 bytes
";

#[test]
fn any_nodes_are_listed(rt: HostRuntime) -> Result<(), Fail> {
    let text = text_of(rt.alloc(), "odd", ODD)?;
    assert_eq!(rt; text.as_str(), ODD_TEXT);
    Ok(())
}

#[test]
fn a_refusal_is_handed_on(rt: HostRuntime) {
    let answer = text_of(rt.alloc(), "cut", &ODD[..33]);
    assert_eq!(rt; answer.err(), Some(ListFault::Refused(FileFault::Cut(20))));
}

const KINDS_TEXT: &str = "locals: 0
labels: 0
nodes: 17
place    up   end  detail  number  kind
    0     0     0       5       3  literal of long
    1     0     0       5       3    local 3
    2     0     0       5       3    unary
    3     0     0       5       3    binary
    4     0     0       5       3    conditional
    5     0     0       5       3    assignment to local 3
    6     0     0       5       3    reading of channel 3
    7     0     0       5       3    kind 7
    8     0     0       5       3    empty
    9     0     0       5       3    expression statement
   10     0     0       5       3    labelled by label 3
   11     0     0       5       3    break to label 3
   12     0     0       5       3    continue to label 3
   13     0     0       5       3    if
   14     0     0       5       3    while
   15     0     0       5       3    block
   16     0     0       5       3    declaration of local 3
read kinds whole: 244 bytes
";

#[test]
fn every_kind_has_its_words(rt: HostRuntime) -> Result<(), Fail> {
    let mut bytes = b"\0\0\0\0\x11\0".to_vec(rt.alloc())?;
    for kind in 0..17u8 {
        bytes.extend_from_slice(&[kind, 5, 0, 0, 0, 0, 3, 0, 0, 0, 0, 0, 0, 0])?;
    }
    let text = text_of(rt.alloc(), "kinds", bytes.as_slice())?;
    assert_eq!(rt; text.as_str(), KINDS_TEXT);
    Ok(())
}

// A local whose number is no number of a local.
const FAR: &[u8; 20] = b"\0\0\0\0\x01\0\
    \x01\0\0\0\x01\0\0\x01\0\0\0\0\0\0";

const FAR_TEXT: &str = "locals: 0
labels: 0
nodes: 1
place    up   end  detail  number  kind
    0     0     1       0     256  local
read far whole: 20 bytes
";

#[test]
fn a_number_out_of_range_is_not_named(rt: HostRuntime) -> Result<(), Fail> {
    let text = text_of(rt.alloc(), "far", FAR)?;
    assert_eq!(rt; text.as_str(), FAR_TEXT);
    Ok(())
}
