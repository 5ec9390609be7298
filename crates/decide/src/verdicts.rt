// What the rules say of constraints, kept from row to row in a table of 256, for two switch words: in front for that of the last
// row, and behind for that of the word before.
ghost use Rattle.std.specs.Prelude.{◌≡◌};
ghost use Rattle.format.specs.Policy.{record_at};
ghost use Rattle.decide.specs.Inner.Parts.{RuleHere};
ghost use Rattle.decide.specs.Inner.Rules.{allow_at};
ghost use Rattle.decide.specs.Inner.Verdicts.{names_switch, any_named, Turned, first_held, KeptFor, Recalled};

use crate::policy::{Policy, Survey};
use crate::rules::{is_allow, past};
use crate::word::word_in;
use format::header;

// What the rules say of one constraint, under each of the two words: whether they break its predicate, where they were asked.
// Each is 0 for nothing, 1 for no or 2 for yes, that in front the remainder by 4 and that behind the quotient: two Options take
// four bytes, and a decision on the sample a tenth longer.
#[derive(Clone, Copy)]
pub(crate) struct Verdict(u8);

impl Verdict {
    ghost use Rattle.decide.specs.Inner.Verdicts.{front_of, behind_of, Turns};

    pub(crate) const UNASKED: Verdict = Verdict(0);

    // What is known in front.
    pub(crate) fn front(self) -> Option<bool>
        ensures { result ≡ front_of self }
    {
        let said = self.0 % 4;
        if said == 0 { None } else { Some(said == 2) }
    }

    // The same with one more in front, where there is none.
    pub(crate) fn with_front(self, broken: bool) -> Verdict
        requires { front_of self ≡ None }
        ensures { (front_of result ≡ Some broken) × (behind_of result ≡ behind_of self) }
    {
        Verdict(self.0 + 1 + u8::from(broken))
    }

    // What stands in front put behind, and in front what stands behind, or nothing.
    fn turned(self, back: bool) -> Verdict
        ensures { Turns back self result }
    {
        let front = if back { self.0 / 4 % 4 } else { 0 };
        Verdict(self.0 % 4 * 4 + front)
    }
}

// What is lent from query to query: the verdicts on constraints, and marks for a source and a destination, of which none is set.
#[derive(Drop)]
pub(crate) struct Tables {
    pub verdicts: [Verdict; 256],
    pub source: [bool; 1024],
    pub dest: [bool; 1024],
}

impl Tables {
    ghost use Rattle.decide.specs.Inner.Verdicts.{no_tables};

    // Those of a first query: nothing is kept.
    pub(crate) fn new() -> Tables
        ensures { result ≡ no_tables }
    {
        Tables {
            verdicts: [Verdict::UNASKED; 256],
            source: [false; 1024],
            dest: [false; 1024],
        }
    }
}

// The word that the verdicts in front are right for, and that of those behind; and whether a rule names a switch, once the rules
// were asked. Before the first row there is none.
#[derive(Clone, Copy)]
pub(crate) struct Held {
    pub word: u32,
    pub other: u32,
    pub named: Option<bool>,
}

// Whether the rule at a place names a switch.
fn is_switched(image: &[u8], at: usize, allow: bool) -> bool
    requires { RuleHere image.now at × (allow ≡ allow_at image.now at) }
    ensures { result ≡ names_switch (record_at image.now at) }
{
    allow && 1 < image[at + 10]
}

// What stands in front put behind in the whole table, and in front what stands behind, or nothing.
fn turn(verdicts: &mut [Verdict; 256], back: bool)
    ensures { Turned back verdicts.old verdicts.new }
{
    for v in verdicts.iter_mut() {
        *v = v.turned(back);
    }
}

// Where no verdict is kept, they are right for every word.
fn first_held(switches: u32) -> Held
    ensures { result ≡ first_held switches }
{
    Held {
        word: switches,
        other: switches,
        named: None,
    }
}

impl Policy<'_> {
    // Whether a rule names a switch.
    fn any_switched(self) -> bool
        ensures { result ≡ any_named self.entry.image.now }
    {
        let count = word_in(self.image, header::RULES_AT);
        let mut at = self.starts.rules;
        for _n in 0..count {
            let allow = is_allow(self.image, at);
            if is_switched(self.image, at, allow) {
                return true;
            }
            at = past(self.image, at, allow);
        }
        false
    }

    // Makes the verdicts in front right for a word. Where they are kept under another one, they stay if no rule names a switch,
    // which the rules are asked at most once; else they go behind, and those there come in front, if they are this word's.
    fn recall_at(self, verdicts: &mut [Verdict; 256], held: Option<Held>, switches: u32) -> Held
        requires { KeptFor self.image.now held verdicts.old }
        ensures { Recalled self.entry.image.now switches result verdicts.new }
    {
        let Some(held) = held else {
            return first_held(switches);
        };
        if held.word == switches {
            return held;
        }
        let named = match held.named {
            Some(named) => named,
            None => self.any_switched(),
        };
        let mut other = held.other;
        if named {
            turn(verdicts, held.other == switches);
            other = held.word;
        }
        Held {
            word: switches,
            other,
            named: Some(named),
        }
    }
}

impl Survey<'_> {
    // The same on an image that was checked: nothing is kept of a refused one.
    pub(crate) fn recall(
        self,
        verdicts: &mut [Verdict; 256],
        held: Option<Held>,
        switches: u32,
    ) -> Held
        requires { KeptFor self.image.now held verdicts.old }
        ensures { Recalled self.entry.image.now switches result verdicts.new }
    {
        match self.sections {
            Err(_) => first_held(switches),
            Ok(starts) => {
                let policy = Policy {
                    image: self.image,
                    groups: self.groups,
                    starts,
                };
                policy.recall_at(verdicts, held, switches)
            }
        }
    }
}
