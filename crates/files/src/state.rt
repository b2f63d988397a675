// The states of the rule reader.

// Between rules; behind a rule's name; where an item may come; behind a literal, its colon, its size, its at sign.
#[derive(Clone, Copy, PartialEq)]
pub(crate) enum State {
    Outside,
    Named,
    Items,
    AfterLiteral,
    AfterColon,
    AfterSize,
    AfterAt,
}
