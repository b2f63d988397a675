// What a family is asked for.
ghost use Rattle.std.specs.Prelude.{◌≡◌, ℕ, ◌+◌, ◌<◌, ◌≤◌, true, false, length, Some, None, IsSome, vec_len, slice_index, slice_index_or};
ghost use Rattle.files.specs.Grammars.{rule_at, alternative_at, rule_alternatives, label_at, found_name};
ghost use Rattle.files.specs.Items.{item_in};
ghost use Rattle.families.specs.Finds.{Finds};

use crate::family::Family;
use files::item::{Alternative, Item, Label, Rule};

impl Family {
    // How many names there are.
    pub fn names(&self) -> usize
        ensures value { result ≡ length self.now.grammar.rules.items }
        ensures few { result ≤ 32 }
    {
        self.grammar.names()
    }

    // How many items there are.
    pub fn items(&self) -> usize
        ensures value { result ≡ length self.now.grammar.labels.items }
        ensures few { result ≤ 128 }
    {
        self.grammar.items()
    }

    // The number of a name, if the family has it.
    pub fn find(&self, name: &[u8]) -> Option<usize>
        ensures value { result ≡ found_name self.now.grammar.rules.items name.now }
        ensures finds { Finds self.now.grammar.rules.items name.now result }
    {
        self.grammar.index(name)
    }

    // The rule of name y; one without alternatives where there is no such name.
    pub fn rule(&self, y: usize) -> Rule
        ensures { result ≡ rule_at self.now.grammar.rules.items y }
    {
        self.grammar.rule(y)
    }

    // Alternative a of all; one without items where there is none.
    pub fn alternative(&self, a: usize) -> Alternative
        ensures { result ≡ alternative_at self.now.grammar.alternatives.items a }
    {
        self.grammar.alternative(a)
    }

    // The item at a place of alternative a, if one stands there.
    pub fn item(&self, a: usize, slot: usize) -> Option<Item>
        ensures item { result ≡ item_in (alternative_at self.now.grammar.alternatives.items a) slot }
        ensures inside { IsSome result → slot < 6 }
    {
        self.grammar.item(a, slot)
    }

    // The alternatives of the rule, in their order, as far as there are so many.
    pub fn alternatives(&self, rule: Rule) -> &[Alternative]
        ensures { result.now ≡ rule_alternatives self.now.grammar.alternatives.items rule }
    {
        self.grammar.alternatives(rule)
    }

    // The label of item j; an empty one where there is none.
    pub fn label(&self, j: usize) -> Label
        ensures { result ≡ label_at self.now.grammar.labels.items j }
    {
        self.grammar.label(j)
    }

    // Whether name y can be empty.
    pub fn nullable(&self, y: usize) -> bool
        ensures { result ≡ slice_index_or self.now.nullable y false }
    {
        self.nullable.get(y).copied().unwrap_or(false)
    }

    // The rank of name y: it falls along every step.
    pub fn rank(&self, y: usize) -> usize
        ensures { result ≡ slice_index self.now.ranks y }
    {
        self.ranks.get(y).copied().unwrap_or(0)
    }
}
