// What is made of a grammar and read from it.
ghost use Rattle.std.specs.Prelude.{◌≡◌, ◌<◌, ◌≤◌, length, vec_len, vec_capacity, IfSome, IsSome, MatchResult};
ghost use Rattle.files.specs.Items.{item_in};
ghost use Rattle.files.specs.Grammars.{lists_of, no_lists, rule_at, alternative_at, rule_alternatives, label_at, found_name};
ghost use Rattle.files.specs.declared.fault.Fault.TheVariants.{OutOfMemory};

use crate::fault::Fault;
use crate::grammar::Grammar;
use crate::item::{Alternative, Item, Label, Rule};
use std::alloc::Global;

// Puts copies of `from` in the place of what `to` held; the memory is there. `clone_from` would ask for some.
fn copy_all<T: Copy>(to: &mut Vec<T>, from: &[T])
    requires { length from.now ≤ vec_capacity to.old }
    ensures items { to.new.items ≡ from.now }
    ensures len { vec_len to.new ≡ length from.now }
    ensures capacity { vec_capacity to.old ≤ vec_capacity to.new }
{
    to.clear();
    to.extend_from_slice(from).unwrap();
}

impl Grammar {
    // No rules, with memory reserved for all that a family may have.
    pub fn new(heap: Global) -> Result<Grammar, Fault>
        ensures { MatchResult result (λ g. lists_of g ≡ no_lists) (λ e. e ≡ OutOfMemory) }
    {
        Ok(Grammar {
            rules: Vec::with_capacity(heap, 32)?,
            alternatives: Vec::with_capacity(heap, 64)?,
            labels: Vec::with_capacity(heap, 128)?,
        })
    }

    // Without rules again; the memory stays.
    pub(crate) fn clear(&mut self)
        ensures { lists_of self.new ≡ no_lists }
    {
        self.rules.clear();
        self.alternatives.clear();
        self.labels.clear();
    }

    // Takes over the rules of another, label by label.
    pub fn copy_from(&mut self, other: &Grammar)
        ensures { lists_of self.new ≡ lists_of other.now }
    {
        copy_all(&mut self.rules, other.rules.as_slice());
        copy_all(&mut self.alternatives, other.alternatives.as_slice());
        copy_all(&mut self.labels, other.labels.as_slice());
    }

    // The number of the rule of that name, if there is one.
    pub fn index(&self, text: &[u8]) -> Option<usize>
        ensures value { result ≡ found_name self.now.rules.items text.now }
        ensures within { IfSome result (λ y. y < vec_len self.now.rules) }
    {
        self.rules.iter().position(|rule| rule.label.says(text))
    }

    // Rule y; one without alternatives past the last.
    #[tactic(auto, using(crate::proofs::Defaults::rule_default))]
    pub fn rule(&self, y: usize) -> Rule
        ensures { result ≡ rule_at self.now.rules.items y }
    {
        self.rules.get(y).copied().unwrap_or_default()
    }

    // Alternative a of all; one without items past the last.
    pub fn alternative(&self, a: usize) -> Alternative
        ensures { result ≡ alternative_at self.now.alternatives.items a }
    {
        self.alternatives.get(a).copied().unwrap_or_default()
    }

    // The item at a place of alternative a, if one stands there: read where it is, without a copy of the alternative.
    pub fn item(&self, a: usize, slot: usize) -> Option<Item>
        ensures item { result ≡ item_in (alternative_at self.now.alternatives.items a) slot }
        ensures inside { IsSome result → slot < 6 }
    {
        let alternative = self.alternatives.get(a)?;
        if slot < alternative.count {
            alternative.items.get(slot).copied()
        } else {
            None
        }
    }

    // The alternatives of the rule, in their order, as far as there are so many.
    pub fn alternatives(&self, rule: Rule) -> &[Alternative]
        ensures { result.now ≡ rule_alternatives self.now.alternatives.items rule }
    {
        let all = self.alternatives.as_slice();
        let from_first = &all[rule.first.min(all.len())..];
        &from_first[..rule.count.min(from_first.len())]
    }

    // The label of item j; an empty one past the last.
    #[tactic(auto, using(crate::proofs::Defaults::label_default))]
    pub fn label(&self, j: usize) -> Label
        ensures { result ≡ label_at self.now.labels.items j }
    {
        self.labels.get(j).copied().unwrap_or_default()
    }
}
