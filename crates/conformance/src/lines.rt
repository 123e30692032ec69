// A line for each case: a Java expression, an equals sign, and what the operator gave.
ghost use Rattle.std.specs.Prelude.{Some};
ghost use Rattle.conformance.specs.Lines.{operand_text, outcome, unary_line, binary_line};

use java::{Binary, NoValue, Primitive, Unary, Value};
use std::fmt;

// A value with its type, as Java writes it: `(int) -7`, `(long) 5L`.
#[derive(Clone, Copy)]
pub struct Operand(pub Value);

// What an operator gave.
#[derive(Clone, Copy)]
pub struct Outcome(pub Result<Value, NoValue>);

impl fmt::Display for Outcome {
    ghost output = { λ o. Some (outcome o.0) };

    fn fmt<W: fmt::Write>(&self, f: &mut fmt::Formatter<W>) -> fmt::Result {
        match self.0 {
            Ok(value) => write!(f, "{}", Operand(value)),
            Err(why) => write!(f, "{why}"),
        }
    }
}

// An operator with what it is applied to: one value, or a pair of them.
#[derive(Clone, Copy)]
pub struct Case<O, A> {
    pub operator: O,
    pub operands: A,
}

impl fmt::Display for Operand {
    ghost output = { λ o. Some (operand_text o.0) };

    fn fmt<W: fmt::Write>(&self, f: &mut fmt::Formatter<W>) -> fmt::Result {
        let Operand(value) = *self;
        let kind = value.primitive();
        match kind {
            Primitive::Long => write!(f, "({kind}) {value}L"),
            _ => write!(f, "({kind}) {value}"),
        }
    }
}

impl fmt::Display for Case<Unary, Value> {
    ghost output = { λ c. Some (unary_line c.operator c.operands) };

    fn fmt<W: fmt::Write>(&self, f: &mut fmt::Formatter<W>) -> fmt::Result {
        let (operator, operand) = (self.operator, Operand(self.operands));
        let value = self.operator.apply(self.operands);
        let outcome = Outcome(value.ok_or(NoValue::Untyped));
        write!(f, "{operator}{operand} = {outcome}")
    }
}

impl fmt::Display for Case<Binary, (Value, Value)> {
    ghost output = { λ c. Some (binary_line c.operator c.operands.0 c.operands.1) };

    fn fmt<W: fmt::Write>(&self, f: &mut fmt::Formatter<W>) -> fmt::Result {
        let operator = self.operator;
        let (left, right) = (Operand(self.operands.0), Operand(self.operands.1));
        let outcome = Outcome(self.operator.apply(self.operands.0, self.operands.1));
        write!(f, "{left} {operator} {right} = {outcome}")
    }
}
