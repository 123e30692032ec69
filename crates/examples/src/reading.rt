// What reading answers, and what it leaves in the tables.
use crate::files::{ONE_FIELD, SPARE, Tables, damaged, filled, node};
use java::Primitive;
use script_file::{FileFault, MOST_BYTES, Sizes, read};
use std::test::Fail;

// Where the part begins that the byte at an offset of ONE_FIELD belongs to.
fn part_of(offset: u16) -> u16 {
    match offset {
        0..=1 => 0,
        2 => 2,
        3..=4 => 3,
        5..=6 => 5,
        _ => offset - (offset - 7) % 14,
    }
}

#[test]
fn a_file_is_read_whole(rt: HostRuntime) {
    let mut t = Tables::spare();
    let sizes = Sizes {
        locals: 1,
        labels: 0,
        nodes: 5,
    };
    assert_eq!(rt; t.read(ONE_FIELD), Ok(sizes));
    assert_eq!(rt; t.types[0], Primitive::Int);
    assert_eq!(rt; t.types[1], Primitive::Char);
    assert_eq!(rt; t.nodes[0], node(15, 0, 0, 5, 0));
    assert_eq!(rt; t.nodes[1], node(16, 0, 0, 2, 0));
    assert_eq!(rt; t.nodes[2], node(9, 0, 0, 5, 0));
    assert_eq!(rt; t.nodes[3], node(5, 0, 2, 5, 0));
    assert_eq!(rt; t.nodes[4], node(0, 4, 3, 5, 1));
    assert_eq!(rt; t.nodes[5], SPARE);
}

#[test]
fn every_front_is_refused(rt: HostRuntime) {
    let mut t = Tables::spare();
    let file = *ONE_FIELD;
    for n in 0..77u16 {
        let answer = t.read(&file[..n as usize]);
        assert_eq!(rt; answer, Err(FileFault::Cut(part_of(n))), "{}", n);
    }
    assert_eq!(rt; t.types[0], Primitive::Char);
    assert_eq!(rt; t.nodes[0], SPARE);
}

#[test]
fn bytes_behind_the_nodes_are_refused(rt: HostRuntime) -> Result<(), Fail> {
    let mut t = Tables::spare();
    let mut bytes = ONE_FIELD.to_vec(rt.alloc())?;
    bytes.push(0)?;
    let answer = t.read(bytes.as_slice());
    assert_eq!(rt; answer, Err(FileFault::Trailing(77)));
    assert_eq!(rt; t.nodes[0], SPARE);
    Ok(())
}

// One byte of ONE_FIELD replaced: its offset, the new byte, and the fault by hand from the format.
const DAMAGES: [(usize, u8, FileFault); 11] = [
    (0, 65, FileFault::Count(0)),
    (1, 1, FileFault::Count(0)),
    (2, 6, FileFault::TypeCode(2)),
    (2, 255, FileFault::TypeCode(2)),
    (3, 33, FileFault::Count(3)),
    (5, 0, FileFault::Count(5)),
    (6, 4, FileFault::Count(5)),
    (5, 6, FileFault::Cut(77)),
    (5, 4, FileFault::Trailing(63)),
    (0, 0, FileFault::Count(4)),
    (0, 2, FileFault::Count(4)),
];

#[test]
fn the_first_fault_is_named(rt: HostRuntime) {
    let mut t = Tables::spare();
    for (at, byte, fault) in DAMAGES {
        let bytes = damaged(at, byte);
        assert_eq!(rt; t.read(&bytes), Err(fault), "{}", at);
    }
    assert_eq!(rt; t.types[0], Primitive::Char);
    assert_eq!(rt; t.nodes[0], SPARE);
}

const LARGEST: Sizes = Sizes {
    locals: 64,
    labels: 32,
    nodes: 1024,
};

#[test]
fn the_largest_script_is_read(rt: HostRuntime) -> Result<(), Fail> {
    let mut t = Tables::spare();
    let bytes = filled(rt.alloc(), LARGEST)?;
    assert_eq!(rt; bytes.len(), MOST_BYTES);
    assert_eq!(rt; t.read(bytes.as_slice()), Ok(LARGEST));
    assert_eq!(rt; t.types[63], Primitive::Long);
    assert_eq!(rt; t.nodes[1023], node(8, 0, 1023, 256, -1));
    Ok(())
}

#[test]
fn a_file_of_any_length_gets_an_answer(rt: HostRuntime) -> Result<(), Fail> {
    let mut t = Tables::spare();
    let more = [7u8; 60_000];
    let mut bytes = filled(rt.alloc(), LARGEST)?;
    bytes.extend_from_slice(&more)?;
    let answer = t.read(bytes.as_slice());
    assert_eq!(rt; answer, Err(FileFault::Trailing(14_406)));
    Ok(())
}

// Counts at the edge of their limits: locals, labels, nodes, and where the count stands that is outside.
const OUTSIDE: [(u16, u16, u16, u16); 4] = [
    (65, 0, 1, 0),
    (64, 33, 1, 66),
    (64, 32, 1025, 68),
    (0, 0, 0, 4),
];

#[test]
fn one_more_than_the_limits_is_refused(rt: HostRuntime) -> Result<(), Fail> {
    let mut t = Tables::spare();
    for (locals, labels, nodes, at) in OUTSIDE {
        let sizes = Sizes {
            locals,
            labels,
            nodes,
        };
        let bytes = filled(rt.alloc(), sizes)?;
        let answer = t.read(bytes.as_slice());
        assert_eq!(rt; answer, Err(FileFault::Count(at)));
    }
    Ok(())
}

#[test]
fn tables_one_short_are_refused_last(rt: HostRuntime) {
    let mut t = Tables::spare();
    let full = Err(FileFault::Room);
    assert_eq!(rt; read(ONE_FIELD, &mut t.types[..0], &mut t.nodes[..5]), full);
    assert_eq!(rt; read(ONE_FIELD, &mut t.types[..1], &mut t.nodes[..4]), full);
    let bad = damaged(2, 6);
    let answer = read(&bad, &mut t.types[..0], &mut t.nodes[..0]);
    assert_eq!(rt; answer, Err(FileFault::TypeCode(2)));
    assert_eq!(rt; t.types[0], Primitive::Char);
    assert_eq!(rt; t.nodes[0], SPARE);
    assert!(rt; read(ONE_FIELD, &mut t.types[..1], &mut t.nodes[..5]).is_ok());
}

#[test]
fn numbers_stand_least_byte_first(rt: HostRuntime) {
    let mut t = Tables::spare();
    let mut bytes = *ONE_FIELD;
    bytes[9] = 1;
    bytes[10] = 2;
    bytes[76] = 128;
    assert!(rt; t.read(&bytes).is_ok());
    assert_eq!(rt; t.nodes[0], node(15, 0, 513, 5, 0));
    assert_eq!(rt; t.nodes[4], node(0, 4, 3, 5, -9_223_372_036_854_775_807));
}

#[test]
fn anything_gets_an_answer(rt: HostRuntime) {
    let mut t = Tables::spare();
    let high = [255u8; 2000];
    let low = [0u8; 2000];
    assert_eq!(rt; t.read(&high), Err(FileFault::Count(0)));
    assert_eq!(rt; t.read(&low), Err(FileFault::Count(4)));
    assert_eq!(rt; t.read(&[]), Err(FileFault::Cut(0)));
}
