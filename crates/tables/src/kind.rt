// Weight kinds: what a table's values are, and what is done with them.
ghost use Rattle.std.specs.Prelude.{◌≡◌, ℕ, ◌+◌, ◌*◌, min, Option};
ghost use Rattle.theory.specs.Kinds.{Kind, Laws};
ghost use Rattle.tables.specs.Counts.{count_kind, count_shown};
ghost use Rattle.tables.specs.Costs.{cheapest_kind, cheapest_shown};
ghost use Rattle.tables.specs.KindLaws.{count_laws, cheapest_laws};

use crate::cheapest::Cheapest;
use crate::count::Count;

// A weight kind: its values with a none, a unit, a sum, a product and a weight for each cost, and the laws of a semiring.
// `LETTER` is what the totals sheet prints for it, and `show` how it prints a value: a number, or absent. It has its own
// `kind`, and not that of theory's `Weight`, so that clauses say `K.kind`.
pub trait WeightKind: Copy {
    const LETTER: u8;

    ghost LETTER: { ℕ };

    ghost kind: { Kind Self };

    ghost shown: { Self → Option ℕ };

    fn nothing() -> Self
        ensures { result ≡ kind.none };

    fn one() -> Self
        ensures { result ≡ kind.unit };

    fn plus(self, other: Self) -> Self
        ensures { result ≡ kind.sum self other };

    fn times(self, other: Self) -> Self
        ensures { result ≡ kind.product self other };

    fn weight(cost: u32) -> Self
        ensures { result ≡ kind.weigh cost };

    fn show(self) -> Option<u64>
        ensures { result ≡ shown self };

    // The letter, by a call.
    fn printed_letter() -> u8
        ensures { result ≡ LETTER };

    ghost laws: { Laws kind };
}

// Counting: each literal weighs 1, sums and products stop at the cap.
impl WeightKind for Count {
    const LETTER: u8 = b'c';

    ghost LETTER = { 99 };

    ghost kind = { count_kind };

    ghost shown = { count_shown };

    ghost laws = { count_laws };

    fn nothing() -> Count
        ensures same { result ≡ count_kind.none }
        ensures means { result.value ≡ 0 }
    {
        Count { value: 0 }
    }

    fn one() -> Count
        ensures same { result ≡ count_kind.unit }
        ensures means { result.value ≡ 1 }
    {
        Count { value: 1 }
    }

    fn plus(self, other: Count) -> Count
        ensures same { result ≡ count_kind.sum self other }
        ensures means { result.value ≡ min 18446744073709551615 (self.value + other.value) }
    {
        Count {
            value: self.value.saturating_add(other.value),
        }
    }

    fn times(self, other: Count) -> Count
        ensures same { result ≡ count_kind.product self other }
        ensures means { result.value ≡ min 18446744073709551615 (self.value * other.value) }
    {
        Count {
            value: self.value.saturating_mul(other.value),
        }
    }

    fn weight(cost: u32) -> Count
        ensures same { result ≡ count_kind.weigh cost }
        ensures means { result.value ≡ 1 }
    {
        Self::one()
    }

    fn show(self) -> Option<u64> {
        Some(self.value)
    }

    fn printed_letter() -> u8 {
        Self::LETTER
    }
}

// The cheapest: each literal weighs its cost, the sum is the smaller, the product adds.
impl WeightKind for Cheapest {
    const LETTER: u8 = b'm';

    ghost LETTER = { 109 };

    ghost kind = { cheapest_kind };

    ghost shown = { cheapest_shown };

    ghost laws = { cheapest_laws };

    fn nothing() -> Cheapest
        ensures same { result ≡ cheapest_kind.none }
        ensures means { result.cost ≡ 4294967295 }
    {
        Cheapest { cost: u32::MAX }
    }

    fn one() -> Cheapest
        ensures same { result ≡ cheapest_kind.unit }
        ensures means { result.cost ≡ 0 }
    {
        Cheapest { cost: 0 }
    }

    fn plus(self, other: Cheapest) -> Cheapest
        ensures same { result ≡ cheapest_kind.sum self other }
        ensures means { result.cost ≡ min self.cost other.cost }
    {
        self.min(other)
    }

    fn times(self, other: Cheapest) -> Cheapest
        ensures same { result ≡ cheapest_kind.product self other }
        ensures means { result.cost ≡ min 4294967295 (self.cost + other.cost) }
    {
        Cheapest {
            cost: self.cost.saturating_add(other.cost),
        }
    }

    fn weight(cost: u32) -> Cheapest
        ensures same { result ≡ cheapest_kind.weigh cost }
        ensures means { result.cost ≡ cost }
    {
        Cheapest { cost }
    }

    fn show(self) -> Option<u64> {
        if self.cost == u32::MAX {
            None
        } else {
            Some(u64::from(self.cost))
        }
    }

    fn printed_letter() -> u8 {
        Self::LETTER
    }
}
