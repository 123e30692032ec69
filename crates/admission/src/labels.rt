// The rule of labels: no label inside a statement of the same label, each break inside one of its label, each continue
// inside a labelled while.
ghost use Rattle.std.specs.Prelude.{◌≡◌, ◌<◌, IfSome};
ghost use Rattle.semantics.specs.declared.fault.Rule.TheVariants as R;
ghost use Rattle.semantics.specs.Rules.{first_broken};
ghost use Rattle.structure.specs.Forms.{formed_script};
ghost use Rattle.admission.specs.Names.{label_in, label_test, in_loop_at, open_at};
ghost use Rattle.admission.specs.OpenLabels.{label_decides};

use crate::names::{NameRule, first_unkept};
use crate::spot::Spot;
use script::{Construct, Lab, Pos};
use structure::Formed;

// The lowest place at which the rule is broken.
pub(crate) fn first_mislabelled(script: &Formed<'_>) -> Option<Pos>
    ensures { result ≡ first_broken R.Label (formed_script script.now) }
{
    first_unkept::<Labels>(script)
}

// Of the statements of a label only the last one before a place can be open there, since none is inside another.
struct Labels;

impl NameRule for Labels {
    ghost rule = { R.Label };

    ghost introduced = { label_in };

    ghost is_kept = { label_test };

    ghost decides = { label_decides };

    // The label that stands on a statement.
    fn introduced(construct: Construct) -> Option<u8> {
        match construct {
            Construct::Labelled(label) => Some(label.0),
            _ => None,
        }
    }

    fn is_kept(spot: &Spot<'_>, construct: Construct) -> bool {
        match construct {
            Construct::Labelled(label) => spot.open(label).is_none(),
            Construct::Break(label) => spot.open(label).is_some(),
            Construct::Continue(label) => spot.is_in_loop(label),
            _ => true,
        }
    }
}

impl Spot<'_> {
    // The statement of a label that the place stands inside. It stands before the place, so another place follows it.
    fn open(&self, label: Lab) -> Option<Pos>
        ensures value { result ≡ open_at self.now label.0 }
        ensures followed { IfSome result (λ x. x.0 < u16.MAX) }
    {
        let last = self.latest.of(label.0)?;
        let is_open = last < self.place && self.place < self.table.end(last);
        is_open.then_some(last)
    }

    // Whether it stands inside a statement whose label stands directly on a while. No `is_some_and`: a closure that reads `self`
    // would say nothing of its answer here.
    fn is_in_loop(&self, label: Lab) -> bool
        ensures { result ≡ in_loop_at self.now label.0 }
    {
        let Some(labelled) = self.open(label) else {
            return false;
        };
        self.table.construct(Pos(labelled.0 + 1)) == Construct::While
    }
}
