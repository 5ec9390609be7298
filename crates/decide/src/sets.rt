// The sets of types, as marks.
ghost use Rattle.std.specs.Prelude.{◌≡◌, length};
ghost use Rattle.format.specs.declared.Section.TheVariants.{Groups};
ghost use Rattle.format.specs.Format.{count_of};
ghost use Rattle.format.specs.Claims.{IsType};
ghost use Rattle.format.specs.Inner.Places.{words_at};
ghost use Rattle.decision.specs.Sets.{union_of};
ghost use Rattle.decide.specs.Inner.Parts.{TypeAt, TypesAt, groups_in, set_in, set_at};
ghost use Rattle.decide.specs.Inner.Marks.{Basic, mark_all};
ghost use Rattle.decide.specs.Inner.Kept.{Unmarks};
ghost use Rattle.decide.specs.Inner.Sources.{Joined, has, Marking};

use crate::marks::mark;
use crate::policy::Policy;
use crate::types::group_span;
use crate::word::{pairs, word, word_in};

impl Policy<'_> {
    // Marks the basic types of a type, and tells how many they are.
    pub(crate) fn mark_type(self, t: usize, marks: &mut [bool; 1024]) -> usize
        requires { IsType (count_of self.image.now Groups) t }
        ensures { (marks.new ≡ mark_all marks.old (set_in self.entry.image.now t))
            × (result ≡ length (set_in self.entry.image.now t)) }
    {
        if t < 32768 {
            marks[t] = true;
            return 1;
        }
        let s = group_span(self.image, self.groups, t - 32768);
        mark(self.image, s.from, s.count, marks);
        s.count
    }

    // Marks the basic types of the type in the field at a place.
    pub(crate) fn mark_at(self, at: usize, marks: &mut [bool; 1024])
        requires { TypeAt self.image.now at }
        ensures { marks.new ≡ mark_all marks.old (set_at self.entry.image.now at) }
    {
        self.mark_type(word_in(self.image, at), marks);
    }

    // The same, of a group once: a table tells those that were marked.
    pub(crate) fn mark_once(self, at: usize, marks: &mut [bool; 1024], done: &mut [bool; 256])
        requires { TypeAt self.image.now at × Marking self.image.now marks.old done.old }
        ensures { Joined marks.old (has (set_at self.entry.image.now at)) marks.new
            × Marking self.entry.image.now marks.new done.new }
    {
        let t = word_in(self.image, at);
        if t < 32768 {
            marks[t] = true;
            return;
        }
        let g = t - 32768;
        if done[g] {
            return;
        }
        done[g] = true;
        let s = group_span(self.image, self.groups, g);
        mark(self.image, s.from, s.count, marks);
    }

    // Marks the basic types of the types of a list, so many from a place on.
    pub(crate) fn mark_types(self, from: usize, count: usize, marks: &mut [bool; 1024])
        requires { TypesAt self.image.now from count }
        ensures { marks.new
            ≡ mark_all marks.old (union_of (groups_in self.entry.image.now) (words_at self.entry.image.now count from)) }
    {
        for field in pairs(self.image, from, count) {
            self.mark_type(word(field), marks);
        }
    }
}

// Takes the marks of a type off again, which leaves none.
pub(crate) fn unmark_type(t: usize, marks: &mut [bool; 1024])
    requires { Basic t }
    ensures { Unmarks t marks.old marks.new }
{
    if t < 32768 {
        marks[t] = false;
        return;
    }
    *marks = [false; 1024];
}
