// Relations of names.
ghost use Rattle.std.specs.Prelude.{◌≡◌, ℕ, ◌<◌, true, false, MatchOption, slice_index, slice_index_or, count_by};
ghost use Rattle.std.specs.List.{range_with_len};
ghost use Rattle.families.specs.Reaches.{pair, Shows, joined, NoCycleBelow};

// A relation of names: the row of a name has a flag for each name that it is related to.
#[derive(Drop)]
pub(crate) struct Relation {
    rows: [[bool; 32]; 32],
}

impl Relation {
    // The relation that has each pair which passes the test.
    pub(crate) fn new<F: Fn(usize, usize) -> bool>(test: F) -> Relation
        requires { F.IsAlwaysCallable test }
        ensures { (x y : ℕ) → x < 32 → y < 32 → F.post test x y (pair result.rows x y) }
    {
        Relation {
            rows: std::array::from_fn(
                |from| -> [bool; 32]
                    requires { F.IsAlwaysCallable test }
                    ensures { (y : ℕ) → y < 32 → F.post test from y (slice_index_or result y false) }
                { std::array::from_fn(|to| test(from, to)) },
            ),
        }
    }

    // Whether it has the pair.
    fn holds(&self, from: usize, to: usize) -> bool
        ensures { result ≡ pair self.now.rows from to }
    {
        self.rows
            .get(from)
            .and_then(|row| row.get(to))
            .copied()
            .unwrap_or(false)
    }

    // The relation with each pair besides that goes by way of `by`.
    pub(crate) fn lengthened(&self, by: usize) -> Relation
        ensures { Shows result.rows (joined self.now.rows by) }
    {
        Relation::new(|from, to| {
            self.holds(from, to) || (self.holds(from, by) && self.holds(by, to))
        })
    }

    // The first name that is related to itself.
    pub(crate) fn first_cycle(&self) -> Option<usize>
        ensures { MatchOption result (NoCycleBelow self.now.rows 32)
            (λ y. (y < 32) × (pair self.now.rows y y ≡ true) × NoCycleBelow self.now.rows y) }
    {
        (0..32).find(|y| self.holds(*y, *y))
    }

    // To how many of the first `names` names `from` is related.
    fn rank(&self, from: usize, names: usize) -> usize
        ensures { result ≡ count_by (pair self.now.rows from) (range_with_len 0 names) }
    {
        (0..names).filter(|to| self.holds(from, *to)).count()
    }

    // The ranks of all names, of which there are `names`.
    pub(crate) fn ranks(&self, names: usize) -> [usize; 32]
        ensures { (y : ℕ) → y < 32 → slice_index result y ≡ count_by (pair self.now.rows y) (range_with_len 0 names) }
    {
        std::array::from_fn(|from| self.rank(from, names))
    }
}
