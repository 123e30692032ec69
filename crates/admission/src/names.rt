// A rule of names, tested from the first place to the last, by where each name was last seen.
ghost use Rattle.std.specs.Prelude.{◌≡◌, ℕ, Bool, Option};
ghost use Rattle.script.specs.declared.construct.Construct.{Construct};
ghost use Rattle.semantics.specs.declared.fault.Rule.{Rule};
ghost use Rattle.semantics.specs.Rules.{first_broken};
ghost use Rattle.structure.specs.Forms.{formed_script};
ghost use Rattle.admission.specs.declared.spot.Spot.{Spot};
ghost use Rattle.admission.specs.Seen.{TestsRule};

use crate::latest::Latest;
use crate::spot::Spot;
use script::{Construct, Pos};
use structure::Formed;

pub(crate) trait NameRule {
    // which of the rules it is
    ghost rule: { Rule };

    // the name that a construct introduces
    ghost introduced: { Construct → Option ℕ };

    // whether a construct keeps the rule at a place
    ghost is_kept: { Spot → Construct → Bool };

    fn introduced(construct: Construct) -> Option<u8>
        ensures { result ≡ introduced construct };

    fn is_kept(spot: &Spot<'_>, construct: Construct) -> bool
        ensures { result ≡ is_kept spot.now construct };

    // where the rule is kept at every place before, the test says whether it is kept at this one
    ghost decides: { TestsRule rule introduced is_kept };
}

// The lowest place at which the rule is broken. A loop, since each turn notes what later turns ask for.
pub(crate) fn first_unkept<R: NameRule>(script: &Formed<'_>) -> Option<Pos>
    ensures { result ≡ first_broken R.rule (formed_script script.now) }
{
    let table = script.table();
    let mut latest = Latest::new();
    for p in 0..table.size() {
        let place = Pos(p);
        let construct = table.construct(place);
        let spot = Spot {
            table,
            latest: &latest,
            place,
        };
        if !R::is_kept(&spot, construct) {
            return Some(place);
        }
        latest.see(R::introduced(construct), place);
    }
    None
}
