// The image without twins: its length is known before a byte is written.
ghost use Rattle.std.specs.Prelude.{◌≡◌, ◌≤◌, length};
ghost use Rattle.format.specs.Policy.{policy_of};
ghost use Rattle.format.specs.Check.{LaidOut};
ghost use Rattle.format.specs.Answers.{starts};
ghost use Rattle.conversion.specs.Convert.{converted_image, Converts};
ghost use Rattle.rewrite.specs.Inner.Put.{Wrote};
ghost use Rattle.rewrite.specs.Inner.Settle.{Alike};
ghost use Rattle.rewrite.specs.Inner.Ready.{Ready};

use crate::put::{copy, put_header};
use crate::retype::{IN_CONSTRAINT, IN_RULE, retype_records};
use crate::section::{kept_length, put_kept};
use crate::twins::{Renumbering, settle};
use format::{Cause, Refusal, Starts, header};
use image::word_at;

// The header, the groups that stay, and all rules and constraints, whose references then follow. The new image has `size` bytes.
fn put_image(image: &[u8], sections: Starts, new: &Renumbering, size: usize, buffer: &mut [u8])
    requires ready { Ready image.now sections new.now }
    requires size { size ≡ length (converted_image image.now) }
    requires room { size ≤ length buffer.old }
    ensures { Wrote buffer.old buffer.new 0 size (converted_image image.now) }
{
    let rules = word_at(image, header::RULES_AT);
    let constraints = word_at(image, header::CONSTRAINTS_AT);
    put_header(buffer, image[0], size, new.kept, rules, constraints);
    let at = put_kept(buffer, header::SIZE, &image[header::SIZE..], new.marks());
    let from = sections.rules;
    copy(buffer, at, &image[from..]);
    retype_records(&mut buffer[at..], rules, IN_RULE, &new.to);
    let behind = at + (sections.constraints - from);
    retype_records(&mut buffer[behind..], constraints, IN_CONSTRAINT, &new.to);
}

// The new image, where it fits. Where all groups stay, it is the old one.
fn put_new(
    image: &[u8],
    sections: Starts,
    new: &Renumbering,
    buffer: &mut [u8],
) -> Result<usize, Refusal>
    requires { Ready image.now sections new.now }
    ensures { Converts image.now buffer.old result buffer.new }
{
    let size = header::SIZE
        + kept_length(&image[header::SIZE..], new.marks())
        + (image.len() - sections.rules);
    if buffer.len() < size {
        return Err(Cause::ShortBuffer.at(0));
    }
    if new.kept == new.groups {
        return Ok(copy(buffer, 0, image));
    }
    put_image(image, sections, new, size, buffer);
    Ok(size)
}

// An image that passes 1 to 7, whose sections start at given places and whose groups are first alike to given ones.
#[tactic(auto, using(crate::proofs::AnswerLaws::groups_few))]
pub(crate) fn put_converted(
    image: &[u8],
    sections: Starts,
    alike: &[u16; 256],
    buffer: &mut [u8],
) -> Result<usize, Refusal>
    requires { LaidOut image.now × (sections ≡ starts image.now)
        × Alike (policy_of image.now).groups (length (policy_of image.now).groups) alike.now }
    ensures { Converts image.now buffer.old result buffer.new }
{
    let groups = word_at(image, header::GROUPS_AT);
    let alike = &alike[..groups];
    put_new(image, sections, &settle(alike), buffer)
}
