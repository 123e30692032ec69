// The cases: the worked examples of Java's specification, further ones of rounding, wrapping and shift counts, and each
// type at its least and its greatest number.
use crate::lines::Case;
use java::{Arithmetic, Binary, Bitwise, Comparison, Equality, Numeric, Shift, Unary, Value};
use std::{fmt, io};

const UNARY: [Unary; 8] = [
    Unary::Plus,
    Unary::Minus,
    Unary::Complement,
    Unary::Cast(Numeric::Byte),
    Unary::Cast(Numeric::Short),
    Unary::Cast(Numeric::Char),
    Unary::Cast(Numeric::Int),
    Unary::Cast(Numeric::Long),
];

const ARITHMETIC: [Binary; 5] = [
    Binary::Arithmetic(Arithmetic::Times),
    Binary::Arithmetic(Arithmetic::Divide),
    Binary::Arithmetic(Arithmetic::Remainder),
    Binary::Arithmetic(Arithmetic::Plus),
    Binary::Arithmetic(Arithmetic::Minus),
];

const SHIFTS: [Binary; 3] = [
    Binary::Shift(Shift::Left),
    Binary::Shift(Shift::Right),
    Binary::Shift(Shift::UnsignedRight),
];

const COMPARISONS: [Binary; 4] = [
    Binary::Comparison(Comparison::Less),
    Binary::Comparison(Comparison::LessOrEqual),
    Binary::Comparison(Comparison::Greater),
    Binary::Comparison(Comparison::GreaterOrEqual),
];

const EQUALITIES: [Binary; 2] = [
    Binary::Equality(Equality::Equal),
    Binary::Equality(Equality::NotEqual),
];

const BITWISE: [Binary; 3] = [
    Binary::Bitwise(Bitwise::And),
    Binary::Bitwise(Bitwise::Xor),
    Binary::Bitwise(Bitwise::Or),
];

const UNARY_OPERANDS: [Value; 30] = [
    Value::Byte(-128),
    Value::Byte(127),
    Value::Short(-32768),
    Value::Short(32767),
    Value::Char(0),
    Value::Char(65535),
    Value::Int(-2147483648),
    Value::Int(2147483647),
    Value::Long(-9223372036854775808),
    Value::Long(9223372036854775807),
    Value::Char(291),
    Value::Int(0),
    Value::Int(1),
    Value::Int(-1),
    Value::Int(200),
    Value::Int(255),
    Value::Int(128),
    Value::Int(32768),
    Value::Int(65535),
    Value::Int(65536),
    Value::Int(305419896),
    Value::Char(1),
    Value::Byte(-1),
    Value::Short(-1),
    Value::Short(1000),
    Value::Long(0),
    Value::Long(-1),
    Value::Long(4294967295),
    Value::Long(-2147483649),
    Value::Long(1311768467463790320),
];

const ARITHMETIC_OPERANDS: [(Value, Value); 36] = [
    (Value::Int(-7), Value::Int(2)),
    (Value::Int(7), Value::Int(-2)),
    (Value::Int(-7), Value::Int(-2)),
    (Value::Int(-2147483648), Value::Int(-1)),
    (Value::Int(5), Value::Int(3)),
    (Value::Int(5), Value::Int(-3)),
    (Value::Int(-5), Value::Int(3)),
    (Value::Int(-5), Value::Int(-3)),
    (Value::Int(1000000), Value::Int(1000000)),
    (Value::Long(1000000), Value::Long(1000000)),
    (Value::Int(20296), Value::Long(0)),
    (Value::Int(1), Value::Int(0)),
    (Value::Long(1), Value::Long(0)),
    (Value::Long(1), Value::Int(0)),
    (Value::Char(65535), Value::Char(0)),
    (Value::Byte(127), Value::Byte(-128)),
    (Value::Int(-2147483648), Value::Int(2147483647)),
    (Value::Int(2147483647), Value::Int(2147483647)),
    (Value::Int(0), Value::Int(-2147483648)),
    (Value::Long(-7), Value::Long(2)),
    (Value::Long(-9223372036854775808), Value::Long(-1)),
    (
        Value::Long(-9223372036854775808),
        Value::Long(9223372036854775807),
    ),
    (
        Value::Long(9223372036854775807),
        Value::Long(-9223372036854775808),
    ),
    (Value::Long(5), Value::Int(-3)),
    (Value::Int(-5), Value::Long(3)),
    (Value::Byte(-128), Value::Byte(127)),
    (Value::Byte(-128), Value::Byte(-1)),
    (Value::Short(-32768), Value::Short(32767)),
    (Value::Short(-32768), Value::Short(-1)),
    (Value::Char(0), Value::Char(65535)),
    (Value::Char(65535), Value::Char(65535)),
    (Value::Byte(-128), Value::Char(65535)),
    (Value::Short(32767), Value::Long(-9223372036854775808)),
    (Value::Char(65535), Value::Long(9223372036854775807)),
    (Value::Byte(127), Value::Short(-32768)),
    (Value::Int(-2147483648), Value::Long(1)),
];

const SHIFT_OPERANDS: [(Value, Value); 34] = [
    (Value::Int(1), Value::Int(33)),
    (Value::Int(-1), Value::Int(28)),
    (Value::Int(1), Value::Int(31)),
    (Value::Int(1), Value::Int(32)),
    (Value::Int(-1), Value::Int(-1)),
    (Value::Int(-2147483648), Value::Int(1)),
    (Value::Int(2147483647), Value::Int(1)),
    (Value::Int(-16), Value::Int(2)),
    (Value::Int(-17), Value::Int(35)),
    (Value::Int(1), Value::Long(33)),
    (Value::Int(-1), Value::Long(4294967300)),
    (Value::Long(1), Value::Int(33)),
    (Value::Long(1), Value::Int(63)),
    (Value::Long(1), Value::Int(64)),
    (Value::Long(-1), Value::Int(60)),
    (Value::Long(-1), Value::Int(28)),
    (Value::Long(-9223372036854775808), Value::Int(63)),
    (Value::Long(9223372036854775807), Value::Int(1)),
    (Value::Long(-17), Value::Int(-1)),
    (
        Value::Long(-9223372036854775808),
        Value::Long(9223372036854775807),
    ),
    (Value::Byte(-1), Value::Long(4)),
    (Value::Byte(-128), Value::Byte(127)),
    (Value::Byte(127), Value::Byte(-128)),
    (Value::Short(-32768), Value::Short(-32768)),
    (Value::Short(32767), Value::Short(32767)),
    (Value::Char(65535), Value::Char(65535)),
    (Value::Char(0), Value::Int(5)),
    (Value::Char(65535), Value::Int(16)),
    (Value::Int(1), Value::Int(-2147483648)),
    (Value::Int(-1), Value::Int(2147483647)),
    (Value::Long(-1), Value::Long(-9223372036854775808)),
    (Value::Int(-1), Value::Char(0)),
    (Value::Int(-2147483648), Value::Char(65535)),
    (Value::Long(9223372036854775807), Value::Byte(-128)),
];

const COMPARISON_OPERANDS: [(Value, Value); 23] = [
    (Value::Int(-1), Value::Int(0)),
    (Value::Int(0), Value::Int(-1)),
    (Value::Int(3), Value::Int(3)),
    (Value::Int(-2147483648), Value::Int(2147483647)),
    (Value::Int(2147483647), Value::Int(-2147483648)),
    (
        Value::Long(-9223372036854775808),
        Value::Long(9223372036854775807),
    ),
    (
        Value::Long(9223372036854775807),
        Value::Long(-9223372036854775808),
    ),
    (
        Value::Long(9223372036854775807),
        Value::Long(9223372036854775807),
    ),
    (Value::Long(0), Value::Long(-1)),
    (Value::Int(-1), Value::Long(4294967295)),
    (Value::Long(4294967295), Value::Int(-1)),
    (Value::Byte(-128), Value::Byte(127)),
    (Value::Byte(127), Value::Byte(-128)),
    (Value::Short(-32768), Value::Short(32767)),
    (Value::Short(32767), Value::Short(-32768)),
    (Value::Char(0), Value::Char(65535)),
    (Value::Char(65535), Value::Char(0)),
    (Value::Char(65535), Value::Short(-1)),
    (Value::Char(65535), Value::Int(-1)),
    (Value::Byte(-128), Value::Char(0)),
    (Value::Short(32767), Value::Long(9223372036854775807)),
    (Value::Long(-9223372036854775808), Value::Char(65535)),
    (Value::Int(2147483647), Value::Long(2147483648)),
];

const EQUALITY_OPERANDS: [(Value, Value); 26] = [
    (Value::Int(0), Value::Int(0)),
    (Value::Int(2147483647), Value::Int(2147483647)),
    (
        Value::Long(9223372036854775807),
        Value::Long(9223372036854775807),
    ),
    (Value::Byte(127), Value::Byte(127)),
    (Value::Short(32767), Value::Short(32767)),
    (Value::Char(65535), Value::Char(65535)),
    (Value::Int(-1), Value::Int(1)),
    (Value::Int(-2147483648), Value::Int(-2147483648)),
    (Value::Int(2147483647), Value::Int(-2147483648)),
    (
        Value::Long(-9223372036854775808),
        Value::Long(-9223372036854775808),
    ),
    (
        Value::Long(9223372036854775807),
        Value::Long(-9223372036854775808),
    ),
    (Value::Byte(-128), Value::Byte(-128)),
    (Value::Byte(127), Value::Byte(-128)),
    (Value::Short(-32768), Value::Short(-32768)),
    (Value::Short(32767), Value::Short(-32768)),
    (Value::Char(0), Value::Char(0)),
    (Value::Char(65535), Value::Char(0)),
    (Value::Byte(-1), Value::Short(-1)),
    (Value::Byte(-128), Value::Int(128)),
    (Value::Short(-32768), Value::Int(32768)),
    (Value::Char(65535), Value::Int(65535)),
    (Value::Char(65535), Value::Int(-1)),
    (Value::Int(-1), Value::Long(4294967295)),
    (Value::Long(-1), Value::Byte(-1)),
    (Value::Char(65535), Value::Long(65535)),
    (Value::Long(127), Value::Short(127)),
];

const BITWISE_OPERANDS: [(Value, Value); 15] = [
    (Value::Int(65280), Value::Int(61680)),
    (Value::Int(-1), Value::Int(0)),
    (Value::Int(-2147483648), Value::Int(2147483647)),
    (Value::Int(-6), Value::Int(3)),
    (
        Value::Long(-9223372036854775808),
        Value::Long(9223372036854775807),
    ),
    (Value::Long(-1), Value::Int(-2147483648)),
    (Value::Int(-1), Value::Long(4294967295)),
    (Value::Char(71), Value::Byte(31)),
    (Value::Byte(-128), Value::Byte(127)),
    (Value::Short(-32768), Value::Short(32767)),
    (Value::Char(65535), Value::Char(0)),
    (Value::Char(65535), Value::Byte(-1)),
    (Value::Char(65535), Value::Short(-32768)),
    (Value::Long(9223372036854775807), Value::Short(-1)),
    (Value::Char(65535), Value::Long(-65536)),
];

const BOOLEAN_OPERANDS: [(Value, Value); 4] = [
    (Value::Boolean(false), Value::Boolean(false)),
    (Value::Boolean(false), Value::Boolean(true)),
    (Value::Boolean(true), Value::Boolean(false)),
    (Value::Boolean(true), Value::Boolean(true)),
];

const BOOLEANS: [Value; 2] = [Value::Boolean(false), Value::Boolean(true)];

// Which binary operators are shown on which pairs, in the order of the lines.
const BINARY_CASES: [(&[Binary], &[(Value, Value)]); 7] = [
    (&ARITHMETIC, &ARITHMETIC_OPERANDS),
    (&SHIFTS, &SHIFT_OPERANDS),
    (&COMPARISONS, &COMPARISON_OPERANDS),
    (&EQUALITIES, &EQUALITY_OPERANDS),
    (&EQUALITIES, &BOOLEAN_OPERANDS),
    (&BITWISE, &BITWISE_OPERANDS),
    (&BITWISE, &BOOLEAN_OPERANDS),
];

fn print_each<O: Copy, A: Copy>(rt: &HostRuntime, operators: &[O], operands: A) -> io::Result<()>
where
    Case<O, A>: fmt::Display,
{
    for &operator in operators {
        println!(rt; "{}", Case { operator, operands })?;
    }
    Ok(())
}

// A line for each operator on each of the operands, the operators fastest.
fn print_all<O: Copy, A: Copy>(rt: &HostRuntime, operators: &[O], all: &[A]) -> io::Result<()>
where
    Case<O, A>: fmt::Display,
{
    for &operands in all {
        print_each(rt, operators, operands)?;
    }
    Ok(())
}

pub(crate) fn print_cases(rt: &HostRuntime) -> io::Result<()> {
    print_all(rt, &UNARY, &UNARY_OPERANDS)?;
    for (operators, pairs) in BINARY_CASES {
        print_all(rt, operators, pairs)?;
    }
    print_all(rt, &[Unary::Not], &BOOLEANS)
}
