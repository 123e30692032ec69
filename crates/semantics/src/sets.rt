// Sets of locals, as bits of one number.
ghost use Rattle.std.specs.Prelude.{◌≡◌, ℕ, ◌^◌, ◌<◌, true, false, cond, not, ◌&&◌, ◌||◌, ◌==◌, nat_lt};
ghost use Rattle.semantics.specs.Sets.{full, has, none, shared, with, without};

use script::Loc;

// Local x is in the set if bit x is one; there is no heap for more.
#[derive(Clone, Copy, PartialEq, Eq, Debug)]
pub struct LocalSet(pub u64);

// What is assigned after a node; if it is an expression that came out true; if it came out false.
#[derive(Clone, Copy, PartialEq, Eq, Debug)]
pub struct Assigned {
    pub after: LocalSet,
    pub when_true: LocalSet,
    pub when_false: LocalSet,
}

impl LocalSet {
    pub const NONE: LocalSet = LocalSet(0);

    // All locals.
    pub const FULL: LocalSet = LocalSet(u64::MAX);

    // Whether a local is in the set.
    #[tactic(auto, using(crate::proofs::Members::bit_in))]
    pub fn has(self, local: Loc) -> bool
        ensures { result ≡ has local.0 self }
    {
        self.0 & bit(local) != 0
    }

    // The locals of both sets.
    #[tactic(auto, using(crate::proofs::Members::has_shared), unfolding(crate::specs::Sets::shared))]
    pub fn shared(self, other: LocalSet) -> LocalSet
        ensures value { result ≡ shared self other }
        ensures exact { (x : ℕ) → has x result ≡ (has x self && has x other) }
    {
        LocalSet(self.0 & other.0)
    }

    // The set with one local more.
    #[tactic(auto, using(crate::proofs::Members::bit_with, crate::proofs::Members::has_with))]
    pub fn with(self, local: Loc) -> LocalSet
        ensures value { result ≡ with local.0 self }
        ensures exact { local.0 < 64 → (x : ℕ) → has x result ≡ (x == local.0 || has x self) }
    {
        LocalSet(self.0 | bit(local))
    }

    // The set without one local.
    #[tactic(auto, using(crate::proofs::Members::bit_without, crate::proofs::Members::has_without))]
    pub fn without(self, local: Loc) -> LocalSet
        ensures value { result ≡ without local.0 self }
        ensures exact { (x : ℕ) → x < 64 → has x result ≡ (not (x == local.0) && has x self) }
    {
        LocalSet(self.0 & !bit(local))
    }
}

// The bit of a local, and none past the last one.
fn bit(local: Loc) -> u64
    ensures { result ≡ cond (nat_lt local.0 64) (2 ^ local.0) 0 }
{
    1u64.checked_shl(u32::from(local.0)).unwrap_or(0)
}
