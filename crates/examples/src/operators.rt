// Values and operators by example: which codes there are, how operators are typed, which numbers a type has. What the
// operators give is shown by the program `conformance`, on Java's own answers.
use java::{Binary, Numeric, Primitive, Unary, Value};
use std::ops::RangeInclusive;
use std::test::Fail;

// In the order of their codes.
const TYPES: [Primitive; 6] = [
    Primitive::Boolean,
    Primitive::Byte,
    Primitive::Short,
    Primitive::Char,
    Primitive::Int,
    Primitive::Long,
];

#[test]
fn types_go_by_their_codes(rt: HostRuntime) {
    for code in 0..=255u8 {
        let expected = TYPES.get(usize::from(code)).copied();
        assert_eq!(rt; Primitive::try_from(code).ok(), expected);
    }
}

// The type of a result, by letter, so that a rule is a table of six rows: b boolean, y byte, s short, c char, i int, l long;
// none is a dash.
fn letter(of_type: Option<Primitive>) -> u8 {
    match of_type {
        Some(Primitive::Boolean) => b'b',
        Some(Primitive::Byte) => b'y',
        Some(Primitive::Short) => b's',
        Some(Primitive::Char) => b'c',
        Some(Primitive::Int) => b'i',
        Some(Primitive::Long) => b'l',
        None => b'-',
    }
}

// The results of a binary operator: a row for each type on the left, in it a letter for each type on the right.
fn binary_letters(operator: Binary) -> [[u8; 6]; 6] {
    TYPES.map(|left| TYPES.map(|right| letter(operator.result_type(left, right))))
}

// * / % + −
const ARITHMETIC: &[u8; 36] = b"------\
    -iiiil\
    -iiiil\
    -iiiil\
    -iiiil\
    -lllll";

// << >> >>>
const SHIFT: &[u8; 36] = b"------\
    -iiiii\
    -iiiii\
    -iiiii\
    -iiiii\
    -lllll";

// < <= > >=
const COMPARISON: &[u8; 36] = b"------\
    -bbbbb\
    -bbbbb\
    -bbbbb\
    -bbbbb\
    -bbbbb";

// == !=
const EQUALITY: &[u8; 36] = b"b-----\
    -bb-bb\
    -bb-bb\
    ---bbb\
    -bbbbb\
    -bbbbb";

// & ^ |
const BITWISE: &[u8; 36] = b"b-----\
    -iiiil\
    -iiiil\
    -iiiil\
    -iiiil\
    -lllll";

// The codes of the operators that are typed as this one is, and their results.
fn binary_rule(operator: Binary) -> (RangeInclusive<u8>, &'static [u8; 36]) {
    match operator {
        Binary::Arithmetic(_) => (0..=4, ARITHMETIC),
        Binary::Shift(_) => (5..=7, SHIFT),
        Binary::Comparison(_) => (8..=11, COMPARISON),
        Binary::Equality(_) => (12..=13, EQUALITY),
        Binary::Bitwise(_) => (14..=16, BITWISE),
    }
}

#[test]
fn binary_operators_are_typed_by_their_rules(rt: HostRuntime) -> Result<(), Fail> {
    for code in 0..17 {
        let operator = Binary::try_from(code)?;
        let (codes, letters) = binary_rule(operator);
        assert!(rt; codes.contains(&code), "{}", code);
        assert_eq!(rt; binary_letters(operator).as_flattened(), &letters[..]);
    }
    Ok(())
}

// The results of a unary operator: a letter for each type of the operand.
fn unary_letters(operator: Unary) -> [u8; 6] {
    TYPES.map(|operand| letter(operator.result_type(operand)))
}

fn unary_rule(operator: Unary) -> (RangeInclusive<u8>, &'static [u8; 6]) {
    match operator {
        Unary::Plus | Unary::Minus | Unary::Complement => (0..=2, b"-iiiil"),
        Unary::Not => (3..=3, b"b-----"),
        Unary::Cast(Numeric::Byte) => (17..=17, b"-yyyyy"),
        Unary::Cast(Numeric::Short) => (18..=18, b"-sssss"),
        Unary::Cast(Numeric::Char) => (19..=19, b"-ccccc"),
        Unary::Cast(Numeric::Int) => (20..=20, b"-iiiii"),
        Unary::Cast(Numeric::Long) => (21..=21, b"-lllll"),
    }
}

#[test]
fn unary_operators_are_typed_by_their_rules(rt: HostRuntime) {
    for code in 0..22 {
        if let Ok(operator) = Unary::try_from(code) {
            let (codes, letters) = unary_rule(operator);
            assert!(rt; codes.contains(&code), "{}", code);
            assert_eq!(rt; &unary_letters(operator), letters);
        }
    }
}

#[test]
fn other_codes_name_no_operator(rt: HostRuntime) {
    for code in 0..=255 {
        assert_eq!(rt;
            Unary::try_from(code).is_ok(),
            matches!(code, 0..=3 | 17..=21)
        );
        assert_eq!(rt; Binary::try_from(code).is_ok(), code <= 16);
    }
}

// Whether a type has this number, and a value with it has that type and that number.
fn has(of: Primitive, number: i64) -> bool {
    Value::new(of, number).is_some_and(|value| value.primitive() == of && value.number() == number)
}

#[test]
fn a_type_has_its_numbers_and_no_others(rt: HostRuntime) {
    assert!(rt; has(Primitive::Boolean, 0) && has(Primitive::Boolean, 1));
    assert!(rt; !has(Primitive::Boolean, -1) && !has(Primitive::Boolean, 2));
    assert!(rt; has(Primitive::Byte, -128) && has(Primitive::Byte, 127));
    assert!(rt; !has(Primitive::Byte, -129) && !has(Primitive::Byte, 128));
    assert!(rt; has(Primitive::Short, -32768) && has(Primitive::Short, 32767));
    assert!(rt; !has(Primitive::Short, -32769) && !has(Primitive::Short, 32768));
    assert!(rt; has(Primitive::Char, 0) && has(Primitive::Char, 65535));
    assert!(rt; !has(Primitive::Char, -1) && !has(Primitive::Char, 65536));
    assert!(rt; has(Primitive::Int, -2147483648) && has(Primitive::Int, 2147483647));
    assert!(rt; !has(Primitive::Int, -2147483649) && !has(Primitive::Int, 2147483648));
    assert!(rt;
        has(Primitive::Long, -9223372036854775808) && has(Primitive::Long, 9223372036854775807)
    );
}
