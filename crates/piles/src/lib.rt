// Layers over layers, over any agenda or any bare heap: each making asks only what its test and the making below gave.
// One maker for all would be no plainer: a trait of layers would have each layer's test, meaning and soundness said twice.
#![tactic(auto)]

ghost use Rattle.std.specs.Prelude.{◌≡◌, []};
ghost use Rattle.stores.specs.Meaning.{WellFormed};
ghost use Rattle.cancelled.specs.Cancelled.{fresh_lazily};
ghost use Rattle.lazy.specs.Lazily.{lazy_meaning, lazy_sound};
ghost use Rattle.quota.specs.Limiting.{with_limits, quota_meaning, quota_sound};
ghost use Rattle.journal.specs.Kept.{History};
ghost use Rattle.journal.specs.Raised.{raised, journal_meaning, journal_sound};
ghost use Rattle.piles.specs.Piled.{MadeIf, OfMade, Places, TwoMore};

use journal::Journal;
use lazy::Lazy;
use quota::Quota;
use stores::{Agenda, BareHeap, Unfit};

// A journal over a quota, over any agenda.
pub fn journal_over_quota<B: Agenda + Drop>(
    below: B,
    limits: [u16; 32],
    used: u16,
) -> Result<Journal<Quota<B>>, Unfit>
    requires { B.Store.sound below }
    ensures test { MadeIf result (TwoMore (B.Store.meaning below) × Places used) }
    ensures sound { OfMade result (journal_sound B.Item.Ordered.le (quota_sound B.Item.Ordered.le B.Store.sound B.Store.meaning) (quota_meaning B.Store.meaning)) }
    ensures formed { OfMade result (λ p. WellFormed B.Item.Ordered.le (journal_meaning (quota_meaning B.Store.meaning) p)) }
    ensures meaning { OfMade result (λ p. journal_meaning (quota_meaning B.Store.meaning) p ≡ raised (with_limits limits (B.Store.meaning below))) }
    ensures log { OfMade result (λ p. (p.own.used ≡ used) × History p.own []) }
{
    Quota::fits(&below)?;
    let quota = Quota::make(below, limits);
    Journal::fits(&quota, used)?;
    Ok(Journal::make(quota, used))
}

// The same over a lazy layer, over a heap with nothing put yet.
pub fn journal_over_quota_over_lazy<B: BareHeap + Drop>(
    below: B,
    limits: [u16; 32],
    used: u16,
) -> Result<Journal<Quota<Lazy<B>>>, Unfit>
    requires sound { B.Store.sound below }
    requires unused { (B.Store.meaning below).state.next ≡ 0 }
    ensures test { MadeIf result (Places used) }
    ensures sound { OfMade result (journal_sound B.Item.Ordered.le (quota_sound B.Item.Ordered.le (lazy_sound B.Item.Ordered.le B.Store.sound B.Store.meaning) (lazy_meaning B.Store.meaning)) (quota_meaning (lazy_meaning B.Store.meaning))) }
    ensures formed { OfMade result (λ p. WellFormed B.Item.Ordered.le (journal_meaning (quota_meaning (lazy_meaning B.Store.meaning)) p)) }
    ensures meaning { OfMade result (λ p. journal_meaning (quota_meaning (lazy_meaning B.Store.meaning)) p ≡ raised (with_limits limits (fresh_lazily (B.Store.meaning below).fixed))) }
    ensures log { OfMade result (λ p. (p.own.used ≡ used) × History p.own []) }
{
    Lazy::fits(&below)?;
    journal_over_quota(Lazy::make(below), limits, used)
}

// Two limits for each queue.
pub fn quota_over_quota<B: Agenda + Drop>(
    below: B,
    inner: [u16; 32],
    outer: [u16; 32],
) -> Result<Quota<Quota<B>>, Unfit>
    requires { B.Store.sound below }
    ensures test { MadeIf result (TwoMore (B.Store.meaning below)) }
    ensures sound { OfMade result (quota_sound B.Item.Ordered.le (quota_sound B.Item.Ordered.le B.Store.sound B.Store.meaning) (quota_meaning B.Store.meaning)) }
    ensures formed { OfMade result (λ p. WellFormed B.Item.Ordered.le (quota_meaning (quota_meaning B.Store.meaning) p)) }
    ensures meaning { OfMade result (λ p. quota_meaning (quota_meaning B.Store.meaning) p ≡ with_limits outer (with_limits inner (B.Store.meaning below))) }
{
    Quota::fits(&below)?;
    let quota = Quota::make(below, inner);
    Quota::fits(&quota)?;
    Ok(Quota::make(quota, outer))
}

// Two journals, each with places of its own.
pub fn journal_over_journal<B: Agenda + Drop>(
    below: B,
    inner: u16,
    outer: u16,
) -> Result<Journal<Journal<B>>, Unfit>
    requires { B.Store.sound below }
    ensures test { MadeIf result (TwoMore (B.Store.meaning below) × Places inner × Places outer) }
    ensures sound { OfMade result (journal_sound B.Item.Ordered.le (journal_sound B.Item.Ordered.le B.Store.sound B.Store.meaning) (journal_meaning B.Store.meaning)) }
    ensures formed { OfMade result (λ p. WellFormed B.Item.Ordered.le (journal_meaning (journal_meaning B.Store.meaning) p)) }
    ensures meaning { OfMade result (λ p. journal_meaning (journal_meaning B.Store.meaning) p ≡ raised (raised (B.Store.meaning below))) }
    ensures log { OfMade result (λ p. (p.own.used ≡ outer) × History p.own []) }
{
    Journal::fits(&below, inner)?;
    let journal = Journal::make(below, inner);
    Journal::fits(&journal, outer)?;
    Ok(Journal::make(journal, outer))
}
