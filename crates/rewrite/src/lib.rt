// Converting an old image into a lent buffer: twin groups go and references follow.
//
// The writer is apart from what is converted: put.rt and section.rt put bytes, a header and marked records at a place, and
// retype.rt changes the groups that records in a buffer name, by a table.
#![tactic(auto)]

mod put; // put.rt: bytes and the header
mod retype; // retype.rt: type fields changed in place
mod section; // section.rt: the marked records of a section
mod twins; // twins.rt: which groups stay, and their new numbers
mod new_image; // new_image.rt: the image without twins

ghost use Rattle.conversion.specs.Convert.{Converts};

use format::{Refusal, header};
use new_image::put_converted;

// The lowest of each set of twins stays, the others go, later groups move down and references follow: the answer is the new
// image's length. Bytes past the new image stay, and a refused call changes no byte.
pub fn convert(image: &[u8], buffer: &mut [u8]) -> Result<usize, Refusal>
    ensures { Converts image.now buffer.old result buffer.new }
{
    let mut places = [0u16; header::MOST_GROUPS];
    let mut alike = [0u16; header::MOST_GROUPS];
    let sections = image::survey_old(image, &mut places, &mut alike)?;
    put_converted(image, sections, &alike, buffer)
}
