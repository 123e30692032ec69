// A script of good form.
ghost use Rattle.std.specs.Prelude.{◌≡◌, true, MatchResult};
ghost use Rattle.script.specs.Tables.{empty_script, script_of};
ghost use Rattle.semantics.specs.Laws.{FormLawful};
ghost use Rattle.semantics.specs.Rules.{form, formed, tested};

use crate::constructs::first_unknown;
use crate::shapes::first_misshapen;
use crate::trees::Tree;
use script::Table;
use semantics::{AdmissionFault, Rule};

// A table that keeps the rules of form: each node is a construct, the nodes are a tree, and each has the children of its
// kind. Only `new` and `hold` make one, so what works on it has nothing to ask for.
#[derive(Clone, Copy, PartialEq, Eq, Debug)]
pub struct Formed<'a> {
    table: Table<'a>,
    ghost ok: { formed (script_of table) ≡ true },
}

impl<'a> Formed<'a> {
    ghost use Rattle.structure.specs.Forms.{formed_script};

    // `{ }`
    #[tactic(auto, using(crate::proofs::Empty::empty_formed))]
    pub fn new() -> Formed<'a>
        ensures { formed_script result ≡ empty_script }
    {
        Formed {
            table: Table::new(),
        }
    }

    // Holds this table from now on; where it breaks a rule of form, what it held before.
    #[tactic(auto, using(semantics::proofs::Formed::form_lawful))]
    pub fn hold(&mut self, table: Table<'a>) -> Result<(), AdmissionFault>
        ensures value { result ≡ tested (script_of table.entry) form }
        ensures lawful { FormLawful (script_of table.entry) result }
        ensures after { MatchResult result (λ _. formed_script self.new ≡ script_of table.entry) (λ _. self.new ≡ self.old) }
    {
        test_form(table)?;
        *self = Formed { table };
        Ok(())
    }

    pub fn table(&self) -> Table<'a>
        ensures { script_of result ≡ formed_script self.now }
    {
        self.table
    }
}

fn test_form(table: Table<'_>) -> Result<(), AdmissionFault>
    ensures { result ≡ tested (script_of table.entry) form }
{
    Rule::Construct.refuse(first_unknown(&table))?;
    let tree = Tree::new(table)?;
    Rule::Children.refuse(first_misshapen(tree))
}
