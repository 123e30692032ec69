// The rule of scopes: no second declaration of a local, and no use of a local that is not in scope.
ghost use Rattle.std.specs.Prelude.{◌≡◌};
ghost use Rattle.semantics.specs.declared.fault.Rule.TheVariants as R;
ghost use Rattle.semantics.specs.Rules.{first_broken};
ghost use Rattle.structure.specs.Forms.{formed_script};
ghost use Rattle.admission.specs.Names.{declared_in, in_scope_at, scope_test};
ghost use Rattle.admission.specs.OpenScopes.{scope_decides};

use crate::names::{NameRule, first_unkept};
use crate::spot::Spot;
use script::{Construct, Loc, Pos};
use structure::Formed;

// The lowest place at which the rule is broken.
pub(crate) fn first_unscoped(script: &Formed<'_>) -> Option<Pos>
    ensures { result ≡ first_broken R.Scope (formed_script script.now) }
{
    first_unkept::<Scopes>(script)
}

// A local is declared at most once, so its declaration is the one that was last seen.
struct Scopes;

impl NameRule for Scopes {
    ghost rule = { R.Scope };

    ghost introduced = { declared_in };

    ghost is_kept = { scope_test };

    ghost decides = { scope_decides };

    // The local that is declared.
    fn introduced(construct: Construct) -> Option<u8> {
        match construct {
            Construct::Declaration(local) => Some(local.0),
            _ => None,
        }
    }

    fn is_kept(spot: &Spot<'_>, construct: Construct) -> bool {
        match construct {
            Construct::Declaration(local) => spot.latest.of(local.0).is_none(),
            Construct::Local(local) | Construct::Assignment(local) => spot.is_in_scope(local),
            _ => true,
        }
    }
}

impl Spot<'_> {
    // Whether the place is in the scope of a local, which reaches to the end of the parent of its declaration.
    fn is_in_scope(&self, local: Loc) -> bool
        ensures { result ≡ in_scope_at self.now local.0 }
    {
        let Some(declaration) = self.latest.of(local.0) else {
            return false;
        };
        self.place < self.table.end(self.table.up(declaration))
    }
}
