// Why a script is not admitted: the rule that it breaks, and where.
ghost use Rattle.std.specs.Prelude.{◌≡◌, Some};
ghost use Rattle.semantics.specs.Faults.{fault_number, fault_text, refusal, rule_number, rule_reason};

use script::Pos;
use std::error::Error;
use std::fmt;

// The rules, in the order in which they are tested, each with the number of its refusal.
#[derive(Clone, Copy, PartialEq, Eq, Debug)]
pub enum Rule {
    // Kind, detail and number are in the table of kinds.
    Construct = 10,
    // The nodes are a tree.
    Tree = 11,
    // Each node has the children of its kind.
    Children = 12,
    // A label is not nested in itself, and a break or continue stands within a statement of its label.
    Label = 13,
    // A local is declared once, before its uses.
    Scope = 14,
    // Some typing rule fits each node.
    Type = 15,
    // A local that is read has been assigned on every way to it.
    Assignment = 16,
}

// The first rule that a script breaks, and the lowest place at which it does. A fault of a file is by byte instead, and no
// code takes either, so the two share no trait.
#[derive(Clone, Copy, PartialEq, Eq, Debug)]
pub struct AdmissionFault {
    pub rule: Rule,
    pub place: Pos,
}

impl Rule {
    pub fn number(self) -> u8
        ensures { result ≡ rule_number self }
    {
        self as u8
    }

    // A refusal by this rule at the place where it is broken, if there is one.
    pub fn refuse(self, place: Option<Pos>) -> Result<(), AdmissionFault>
        ensures { result ≡ refusal self place }
    {
        place.map_or(Ok(()), |place| Err(AdmissionFault { rule: self, place }))
    }

    // What is wrong where the rule is broken, in words.
    pub fn reason(self) -> &'static str
        ensures { result.now ≡ rule_reason self }
    {
        match self {
            Rule::Construct => "kind, detail or number is not in the table of kinds",
            Rule::Tree => "the node is not in its place in a tree",
            Rule::Children => "the children are not those of the kind",
            Rule::Label =>
                "the label is nested in itself, or is not that of an enclosing statement or loop",
            Rule::Scope => "the local is declared twice, or not in scope",
            Rule::Type => "no typing rule fits",
            Rule::Assignment => "the local is not assigned on every way to here",
        }
    }
}

impl AdmissionFault {
    pub fn number(self) -> u8
        ensures { result ≡ fault_number self }
    {
        self.rule.number()
    }
}

impl fmt::Display for AdmissionFault {
    ghost output = { λ e. Some (fault_text e) };

    fn fmt<W: fmt::Write>(&self, f: &mut fmt::Formatter<W>) -> fmt::Result {
        let number = self.rule.number();
        let place = self.place.0;
        let reason = self.rule.reason();
        write!(f, "refusal {number} at place {place}: {reason}")
    }
}

impl Error for AdmissionFault {}
