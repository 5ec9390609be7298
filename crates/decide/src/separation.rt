// What a separation asks of the rules: whether the sources of the live ones that reach its first argument and of those that reach
// its second share a member. One walk marks the members of both.
ghost use Rattle.std.specs.Prelude.{◌≡◌};
ghost use Rattle.decision.specs.Sets.{any_of};
ghost use Rattle.decide.specs.Inner.Parts.{RuleHere, rules_in};
ghost use Rattle.decide.specs.Inner.Rules.{reaching_from, shares_source};
ghost use Rattle.decide.specs.Inner.Sources.{Joined, source_at, Gathering};

use crate::kept::Kept;
use crate::marks::any_both;
use crate::policy::Policy;
use crate::rules::{is_live, past};
use crate::word::word_in;
use format::header;

impl Policy<'_> {
    // Marks the members of the source of the rule at a place, where it is live and reaches marks.
    fn mark_source(
        self,
        at: usize,
        live: bool,
        reach: &[bool; 1024],
        kreach: &mut [Kept; 256],
        marks: &mut [bool; 1024],
        done: &mut [bool; 256],
    )
        requires { RuleHere self.image.now at
            × Gathering self.image.now reach.now kreach.old marks.old done.old }
        ensures { Joined marks.old (source_at self.entry.image.now reach.now at live) marks.new
            × Gathering self.entry.image.now reach.now kreach.new marks.new done.new }
    {
        if self.reaches(at, live, reach, kreach) {
            self.mark_once(at + 2, marks, done);
        }
    }

    // Whether, under a switch word, a live rule that reaches the first marks and one that reaches the second have sources that
    // touch.
    pub(crate) fn any_shared(
        self,
        first: &[bool; 1024],
        second: &[bool; 1024],
        switches: u32,
    ) -> bool
        ensures { result ≡ any_of (reaching_from first.now (shares_source (rules_in self.entry.image.now switches) second.now))
            (rules_in self.entry.image.now switches) }
    {
        let count = word_in(self.image, header::RULES_AT);
        // of the first argument, and of the second: what is kept of groups that meet it, the members of sources that reach it,
        // and the groups among these sources
        let mut kf = [Kept::Unasked; 256];
        let mut ks = [Kept::Unasked; 256];
        let mut a = [false; 1024];
        let mut b = [false; 1024];
        let mut da = [false; 256];
        let mut db = [false; 256];
        let mut at = self.starts.rules;
        for _n in 0..count {
            let live = is_live(self.image, at, switches);
            self.meet_each(at, live, first, second, &mut kf, &mut ks);
            self.mark_source(at, live, first, &mut kf, &mut a, &mut da);
            self.mark_source(at, live, second, &mut ks, &mut b, &mut db);
            at = past(self.image, at, live);
        }
        any_both(&a, &b)
    }
}
