// The forms of the four kinds of rows.
ghost use Rattle.std.specs.Prelude.{◌≡◌, length};
ghost use Rattle.extend.specs.Inner.Filled.{form_of, fields_in, is_short};

use text::Field;
use text::Field::{AnyType, Condition, Member, Number, Predicate};

// The kind of a record, by its number there.
#[derive(Clone, Copy)]
pub(crate) enum Kind {
    Group = 1,
    Allow = 2,
    Transition = 3,
    Constraint = 4,
}

static MEMBERS: [Field; 64] = [Member; 64];

static ALLOW: [Field; 5] = [AnyType, AnyType, Number, Number, Condition];

static TRANSITION: [Field; 3] = [AnyType, AnyType, Number];

static CONSTRAINT: [Field; 21] = [
    Number, Number, AnyType, AnyType, Predicate, AnyType, AnyType, AnyType, AnyType, AnyType,
    AnyType, AnyType, AnyType, AnyType, AnyType, AnyType, AnyType, AnyType, AnyType, AnyType,
    AnyType,
];

impl Kind {
    // What the words of a row say behind its first, as many as it may have.
    pub(crate) fn fields(self) -> &'static [Field]
        ensures { result.now ≡ fields_in (form_of self) }
    {
        match self {
            Kind::Group => &MEMBERS,
            Kind::Allow => &ALLOW,
            Kind::Transition => &TRANSITION,
            Kind::Constraint => &CONSTRAINT,
        }
    }

    // How many words a row has behind its first, at least.
    pub(crate) fn fewest(self) -> usize
        ensures { result ≡ length (form_of self).fields }
    {
        match self {
            Kind::Group => 1,
            Kind::Allow => 5,
            Kind::Transition => 3,
            Kind::Constraint => 5,
        }
    }
}

// The record has one byte for it, and not two.
pub(crate) fn is_short(field: Field) -> bool
    ensures { result ≡ is_short field }
{
    matches!(field, Predicate | Condition)
}
