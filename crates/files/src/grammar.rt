// The rules of a family file, in memory that is reserved once.
ghost use Rattle.std.specs.Prelude.{◌≡◌, ◌≤◌, length, vec_len, vec_capacity};

use crate::item::{Alternative, Label, Rule};

// At most 32 rules, 64 alternatives and 128 items; each item has a label. A rule has its alternatives by the number of the
// first and how many they are, not in a `Vec` of its own: reading a file asks for no memory.
#[derive(Drop)]
pub struct Grammar {
    pub(crate) rules: Vec<Rule>,
    pub(crate) alternatives: Vec<Alternative>,
    pub(crate) labels: Vec<Label>,
    ghost few_rules: { vec_len rules ≤ 32 },
    ghost few_alternatives: { vec_len alternatives ≤ 64 },
    ghost few_labels: { vec_len labels ≤ 128 },
    ghost rule_room: { 32 ≤ vec_capacity rules },
    ghost alternative_room: { 64 ≤ vec_capacity alternatives },
    ghost label_room: { 128 ≤ vec_capacity labels },
}

impl Grammar {
    // How many rules there are, one for each name.
    pub fn names(&self) -> usize
        ensures value { result ≡ length self.now.rules.items }
        ensures few { result ≤ 32 }
    {
        self.rules.len()
    }

    // How many items there are.
    pub fn items(&self) -> usize
        ensures value { result ≡ length self.now.labels.items }
        ensures few { result ≤ 128 }
    {
        self.labels.len()
    }
}
