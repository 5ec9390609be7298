// What the C interface answers: numbers and byte slices only; the crate `mungaite_c` exports it to C. An answer is a number of
// four 16-bit parts, but for a text's, which has two: 16 bits and 48. include/mungaite.h declares the functions and has the
// table of answers.
#![tactic(auto)]

ghost use Rattle.std.specs.Prelude.{◌≡◌, length};
ghost use Rattle.format.specs.Check as reading;
ghost use Rattle.extension.specs.Add.{buffer_after};
ghost use Rattle.decision.specs.Decide as deciding;
ghost use Rattle.decision.specs.Numbers.{decision_code};
ghost use Rattle.conversion.specs.Convert.{buffer_converted};
ghost use Rattle.runs.specs.Numbers.{numbers_run, codes_after, run_code};
ghost use Rattle.text.specs.Build.{built};
ghost use Rattle.mungaite.specs.Code.{fault_code, record_in, record_code, add_code, convert_code, build_code};

use decide::{decide, run_numbers};
use decision::Query;
use extend::{add, build};
use format::{Cause, Section};
use image::{check, find};
use numbers::{number, parts, refused, run_number};
use rewrite::convert;

// 0 where the image is accepted, else the refusal.
pub fn mungaite_check(image: &[u8]) -> u64
    ensures { result ≡ fault_code (reading.check image.now) }
{
    match check(image) {
        Ok(()) => 0,
        Err(f) => refused(f),
    }
}

// The engine's answer to a query under a switch word.
pub fn mungaite_decide(
    source: u16,
    destination: u16,
    class: u16,
    action: u16,
    switches: u32,
    image: &[u8],
) -> u64
    ensures { result ≡ decision_code (deciding.answer image.now (deciding.query_of source destination class action switches)) }
{
    let q = Query {
        source,
        dest: destination,
        class,
        action,
        switches,
    };
    number(decide(image, q))
}

// A run of 1 to 64 queries, six numbers for each, the halves of its word last: the number of each answer, and 0, 1, 0, 0 where
// every row is Permitted, else 0, 0, 0, row. A refused call leaves the answers as they were.
pub fn mungaite_run(queries: &[u16], answers: &mut [u64], image: &[u8]) -> u64
    ensures { (result ≡ run_code (numbers_run image.now queries.now (length answers.old)))
        × (answers.new ≡ codes_after image.now queries.now answers.old) }
{
    run_number(run_numbers(image, queries, answers))
}

// Record n of one section.
fn record_in(image: &[u8], section: Section, n: u16) -> u64
    ensures { result ≡ record_in image.now section n }
{
    match find(image, section, usize::from(n)) {
        Ok(e) => parts(1, e.place, e.length),
        Err(f) => refused(f),
    }
}

// 0, 1, place, length of record n of a section: 0 groups, 1 rules, 2 constraints. No other section has a record.
pub fn mungaite_record(section: u16, n: u16, image: &[u8]) -> u64
    ensures { result ≡ record_code image.now section n }
{
    match section {
        0 => record_in(image, Section::Groups, n),
        1 => record_in(image, Section::Rules, n),
        2 => record_in(image, Section::Constraints, n),
        _ => match check(image) {
            Ok(()) => refused(Cause::NoSuchRecord.at(0)),
            Err(f) => refused(f),
        },
    }
}

// Adds a record to the image that a buffer starts with: 0, 1, 0, number of the record. A refused call changes no byte.
pub fn mungaite_add(buffer: &mut [u8], part: &[u8]) -> u64
    ensures { (result ≡ add_code buffer.old part.now) × (buffer.new ≡ buffer_after buffer.old part.now) }
{
    match add(buffer, part) {
        Ok(number) => parts(1, 0, number),
        Err(f) => refused(f),
    }
}

// Builds the image of a text at the front of a buffer: 0 in the highest 16 bits and then the image's length, or the refusal's
// number and its place in the text. A refused text leaves the image of the rows before the refused one; a buffer under 9 bytes
// is left as it was.
pub fn mungaite_build(text: &[u8], buffer: &mut [u8]) -> u64
    ensures { (result ≡ build_code (built text.now buffer.old).answer)
        × (buffer.new ≡ (built text.now buffer.old).buffer) }
{
    match build(text, buffer) {
        Ok(n) => n as u64,
        Err(f) => (usize::from(f.number) * 281474976710656 + f.place % 281474976710656) as u64,
    }
}

// Converts an old image, one that may have twins, into a buffer: 0, 1, 0, length of the new image. A refused call changes no
// byte, and bytes past the new image stay.
pub fn mungaite_convert(image: &[u8], buffer: &mut [u8]) -> u64
    ensures { (result ≡ convert_code image.now (length buffer.old))
        × (buffer.new ≡ buffer_converted image.now buffer.old) }
{
    match convert(image, buffer) {
        Ok(length) => parts(1, 0, length),
        Err(f) => refused(f),
    }
}
