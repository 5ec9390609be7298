// The decision on an image and a query.
ghost use Rattle.std.specs.Prelude.{◌≡◌};
ghost use Rattle.format.specs.Policy.{policy_of};
ghost use Rattle.decision.specs.Decide as deciding;
ghost use Rattle.decide.specs.Inner.Kept.{Sides, Leaves};
ghost use Rattle.decide.specs.Inner.Verdicts.{KeptVerdicts, Written, TablesFor, Left};

use crate::kept::{Kept, Side};
use crate::policy::{Policy, Survey};
use crate::sets::unmark_type;
use crate::verdicts::{Tables, Verdict};
use crate::word::word_in;
use decision::{Answer, Decision, Query};
use format::{Cause, header};
use image::{is_type, survey};

impl Policy<'_> {
    // The decision of an accepted policy on a query of two sides. Where no rule covers the query, a second walk over the rules
    // finds the nearest.
    fn judge_marked(
        self,
        q: Query,
        source: &mut Side,
        dest: &mut Side,
        verdicts: &mut [Verdict; 256],
    ) -> Decision
        requires { Sides self.image.now q source.old dest.old × KeptVerdicts self.image.now q.switches verdicts.old }
        ensures { Leaves (deciding.decide (policy_of self.entry.image.now) q)
            (Written self.entry.image.now q.switches verdicts.old verdicts.new) result }
    {
        match self.first_rule(q, source, dest) {
            None => Decision::NotPermitted(self.nearest_rule(q, source, dest)),
            Some(r) => match self.first_constraint(q, source, dest, verdicts) {
                None => Decision::Permitted(r),
                Some(c) => Decision::UnKnown(r, c),
            },
        }
    }

    // The decision of an accepted policy on a query of its types. The marks are taken off again, which costs less than 1,024 new
    // ones for each query.
    fn judge(self, q: Query, tables: &mut Tables) -> Decision
        requires { deciding.Valid self.image.now q × TablesFor self.image.now q.switches tables.old }
        ensures { Leaves (deciding.decide (policy_of self.entry.image.now) q)
            (Left self.entry.image.now q.switches tables.old tables.new) result }
    {
        let from = usize::from(q.source);
        let to = usize::from(q.dest);
        let sources = self.mark_type(from, &mut tables.source);
        let dests = self.mark_type(to, &mut tables.dest);
        let mut source_side = Side {
            marks: &tables.source,
            size: sources,
            kept: [Kept::Unasked; 256],
        };
        let mut dest_side = Side {
            marks: &tables.dest,
            size: dests,
            kept: [Kept::Unasked; 256],
        };
        let answer = self.judge_marked(q, &mut source_side, &mut dest_side, &mut tables.verdicts);
        unmark_type(from, &mut tables.source);
        unmark_type(to, &mut tables.dest);
        answer
    }
}

impl Survey<'_> {
    // The engine's answer on an image that was checked. The tables are lent from query to query: the verdicts in front are right
    // under this query's word.
    pub(crate) fn answer(self, q: Query, tables: &mut Tables) -> Answer
        requires { TablesFor self.image.now q.switches tables.old }
        ensures { Leaves (deciding.answer self.entry.image.now q)
            (Left self.entry.image.now q.switches tables.old tables.new) result }
    {
        let starts = self.sections?;
        let count = word_in(self.image, header::GROUPS_AT);
        if !is_type(count, usize::from(q.source)) {
            return Err(Cause::Source.at(0));
        }
        if !is_type(count, usize::from(q.dest)) {
            return Err(Cause::Destination.at(0));
        }
        let policy = Policy {
            image: self.image,
            groups: self.groups,
            starts,
        };
        Ok(policy.judge(q, tables))
    }
}

// The engine's answer: the decision with its rule and its constraint, or refusals 1 to 9 with the place.
pub fn decide(image: &[u8], q: Query) -> Answer
    ensures { result ≡ deciding.answer image.now q }
{
    let mut tables = Tables::new();
    let mut groups = [0u16; 256];
    let sections = survey(image, &mut groups);
    let surveyed = Survey {
        image,
        groups: &groups,
        sections,
    };
    surveyed.answer(q, &mut tables)
}
