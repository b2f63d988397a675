// The definitions of layouts, totals and numbers over abstract families, and the theorems about them.
// The definitions stand in specs/. Each function here does nothing; its contract is a theorem.
#![tactic(auto)]

ghost use Rattle.theory.specs.Kinds.{Kind, Laws};
ghost use Rattle.theory.specs.Orders.{RisingLawful, ToAndFroLawful, SplitsLawful};
ghost use Rattle.theory.specs.Families.{ItemsAreNumbered};
ghost use Rattle.theory.specs.Layouts.{ChoicesTell};
ghost use Rattle.theory.specs.Nullable.{SweepsFindNullable, ClosureAdopts, NullableOne, NullableHasEmptyLayout, ClosureFindsChains, AcyclicHasRanks, RanksExcludeCycles};
ghost use Rattle.theory.specs.Sequence.{SequenceListsLayouts, TailsListForests, SequenceUnfolds, LayoutsShallow};
ghost use Rattle.theory.specs.Totals.{SequenceCounted, TotalsSumAll, RecursionGivesTotals, CountsUpToCap, TotalsAreCheapest};
ghost use Rattle.theory.specs.Tables.{EntriesArePlaced, FilledByRank, SolutionHoldsTotals, TotalsSolve, NamesHoldTotals, NameTotalsSolve};
ghost use Rattle.theory.specs.Numbers.{LayoutsNumbered, PairsNumbered};

// The rising order is lawful.
pub fn rising_lawful()
    ensures { RisingLawful }
{}

// The order to and fro is lawful.
pub fn to_and_fro_lawful()
    ensures { ToAndFroLawful }
{}

// By a lawful order every split of a size is met once.
pub fn splits_lawful()
    ensures { SplitsLawful }
{}

// Each item has its number through the whole family, and each number its item.
pub fn items_numbered()
    ensures { ItemsAreNumbered }
{}

// A choice list tells its layout.
pub fn choices_tell()
    ensures { ChoicesTell }
{}

// Sweeps over the family find the least set of names that can be empty.
pub fn sweeps_find_nullable()
    ensures { SweepsFindNullable }
{}

// There is one least set of names that can be empty.
pub fn nullable_one()
    ensures { NullableOne }
{}

// A name can be empty exactly where it has a layout of size 0.
pub fn nullable_has_empty_layout()
    ensures { NullableHasEmptyLayout }
{}

// The closure of the steps finds exactly the chains.
pub fn closure_finds_chains()
    ensures { ClosureFindsChains }
{}

// A family in which no name reaches itself can be adopted.
pub fn closure_adopts()
    ensures { ClosureAdopts }
{}

// Without an empty cycle there are ranks that fall along each step.
pub fn acyclic_has_ranks()
    ensures { AcyclicHasRanks }
{}

// Where there are such ranks there is no empty cycle.
pub fn ranks_exclude_cycles()
    ensures { RanksExcludeCycles }
{}

// The sequence has each layout of the name and size once, and nothing else.
pub fn sequence_lists_layouts()
    ensures { SequenceListsLayouts }
{}

// So has the sequence of a tail.
pub fn tails_list_forests()
    ensures { TailsListForests }
{}

// The sequence meets its own equation.
pub fn sequence_unfolds()
    ensures { SequenceUnfolds }
{}

// No layout is deeper than the sequence reaches.
pub fn layouts_shallow()
    ensures { LayoutsShallow }
{}

// The sequence is as long as the recursive method counts.
pub fn sequence_counted()
    ensures { SequenceCounted }
{}

// Each number below the count has one layout, and each layout one number.
pub fn layouts_numbered()
    ensures { LayoutsNumbered }
{}

// A number within a split is a pair of numbers.
pub fn pairs_numbered()
    ensures { PairsNumbered }
{}

// The entries of a table stand each at one place.
pub fn entries_placed()
    ensures { EntriesArePlaced }
{}

// A weight kind, with its laws. The theorems below hold for each.
pub trait Weight {
    ghost kind: { Kind Self };

    ghost laws: { Laws kind };
}

// A total is the sum over all layouts, each once, in whatever order.
pub fn totals_sum_all<W: Weight>()
    ensures { TotalsSumAll W.Weight.kind }
{}

// The recursive method gives the totals.
pub fn recursion_gives_totals<W: Weight>()
    ensures { RecursionGivesTotals W.Weight.kind }
{}

// A table that solves the equations holds the totals.
pub fn solution_holds_totals<W: Weight>()
    ensures { SolutionHoldsTotals W.Weight.kind }
{}

// A table that holds the totals solves the equations.
pub fn totals_solve<W: Weight>()
    ensures { TotalsSolve W.Weight.kind }
{}

// The rows of the names alone hold the totals where they solve their equations.
pub fn names_hold_totals<W: Weight>()
    ensures { NamesHoldTotals W.Weight.kind }
{}

// And the totals solve these.
pub fn name_totals_solve<W: Weight>()
    ensures { NameTotalsSolve W.Weight.kind }
{}

// A table can be filled size after size, and within a size by rank.
pub fn filled_by_rank<W: Weight>()
    ensures { FilledByRank W.Weight.kind }
{}

// A kind that counts up to a cap has the number of layouts as its total, or the cap.
pub fn counts_up_to_cap<W: Weight>()
    ensures { CountsUpToCap W.Weight.kind }
{}

// A kind of costs has the least cost of a layout as its total, or the cap.
pub fn totals_are_cheapest<W: Weight>()
    ensures { TotalsAreCheapest W.Weight.kind }
{}
