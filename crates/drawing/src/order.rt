// Split orders: in which sequence the splits of a size are met.
ghost use Rattle.std.specs.Prelude.{◌≡◌, ℕ, ◌≤◌};
ghost use Rattle.theory.specs.Orders.{Order, rising, to_and_fro};
ghost use Rattle.theory.proofs.Orders.{rising_lawful, to_and_fro_lawful};

// For n from 0 to 40 and i from 0 to n an order answers a split k, every k from 0 to n at one i and no other.
// Asked for anything else it may answer anything.
pub trait SplitOrder {
    ghost at: { Self → ℕ → ℕ → ℕ };

    fn split(&self, n: usize, i: usize) -> usize
        ensures answers { n ≤ 40 → i ≤ n → result ≡ at self.now n i }
        ensures within { n ≤ 40 → i ≤ n → result ≤ n };

    ghost lawful: { (s : Self) → Order 40 (at s) };
}

// From 0 up.
#[derive(Clone, Copy)]
pub struct Rising;

impl SplitOrder for Rising {
    ghost at = { λ s. rising };

    ghost lawful = { λ s. rising_lawful 40 };

    fn split(&self, n: usize, i: usize) -> usize {
        i
    }
}

// From both ends in turn, the low end first.
#[derive(Clone, Copy)]
pub struct ToAndFro;

impl SplitOrder for ToAndFro {
    ghost at = { λ s. to_and_fro };

    ghost lawful = { λ s. to_and_fro_lawful 40 };

    fn split(&self, n: usize, i: usize) -> usize {
        if i % 2 == 0 {
            i / 2
        } else {
            n.saturating_sub((i - 1) / 2)
        }
    }
}
