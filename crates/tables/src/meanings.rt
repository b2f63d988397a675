// What the totals of the two kinds are, as theorems.
ghost use Rattle.tables.specs.Meanings.{CountsAreTrue, CostsAreLeast};

pub fn counts_are_true()
    ensures { CountsAreTrue }
{}

pub fn costs_are_least()
    ensures { CostsAreLeast }
{}
