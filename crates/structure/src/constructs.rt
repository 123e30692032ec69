// The rule of constructs: kind, detail and number of each node are in the table of kinds.
ghost use Rattle.std.specs.Prelude.{◌≡◌};
ghost use Rattle.script.specs.Tables.{script_of};
ghost use Rattle.semantics.specs.declared.fault.Rule.TheVariants as R;
ghost use Rattle.semantics.specs.Rules.{first_broken};

use script::{Pos, Table};

// The lowest place at which the rule is broken.
pub(crate) fn first_unknown(table: &Table<'_>) -> Option<Pos>
    ensures { result ≡ first_broken R.Construct (script_of table.now) }
{
    (0..table.size())
        .find(|&p| table.meaning(Pos(p)).is_none())
        .map(Pos)
}
