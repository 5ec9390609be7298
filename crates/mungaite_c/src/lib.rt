// The C interface: the functions of `mungaite` under their own names, exported to C. include/mungaite.h declares them. They stand
// twice, since a crate is a library or a static library.
#![tactic(auto)]

ghost use Rattle.std.specs.Prelude.{◌≡◌, length};
ghost use Rattle.format.specs.Check as reading;
ghost use Rattle.extension.specs.Add.{buffer_after};
ghost use Rattle.decision.specs.Decide as deciding;
ghost use Rattle.decision.specs.Numbers.{decision_code};
ghost use Rattle.conversion.specs.Convert.{buffer_converted};
ghost use Rattle.runs.specs.Numbers.{numbers_run, codes_after, run_code};
ghost use Rattle.text.specs.Build.{built};
ghost use Rattle.mungaite.specs.Code.{fault_code, record_code, add_code, convert_code, build_code};

// 0 where the image is accepted, else the refusal.
#[unsafe(no_mangle)]
pub extern "C" fn mungaite_check(image: &[u8]) -> u64
    ensures { result ≡ fault_code (reading.check image.now) }
{
    mungaite::mungaite_check(image)
}

// The engine's answer to a query under a switch word.
#[unsafe(no_mangle)]
pub extern "C" fn mungaite_decide(
    source: u16,
    destination: u16,
    class: u16,
    action: u16,
    switches: u32,
    image: &[u8],
) -> u64
    ensures { result ≡ decision_code (deciding.answer image.now (deciding.query_of source destination class action switches)) }
{
    mungaite::mungaite_decide(source, destination, class, action, switches, image)
}

// A run of 1 to 64 queries, six numbers for each, the halves of its word last: the number of each answer, and 0, 1, 0, 0 where
// every row is Permitted, else 0, 0, 0, row. A refused call leaves the answers as they were.
#[unsafe(no_mangle)]
pub extern "C" fn mungaite_run(queries: &[u16], answers: &mut [u64], image: &[u8]) -> u64
    ensures { (result ≡ run_code (numbers_run image.now queries.now (length answers.old)))
        × (answers.new ≡ codes_after image.now queries.now answers.old) }
{
    mungaite::mungaite_run(queries, answers, image)
}

// 0, 1, place, length of record n of a section: 0 groups, 1 rules, 2 constraints. No other section has a record.
#[unsafe(no_mangle)]
pub extern "C" fn mungaite_record(section: u16, n: u16, image: &[u8]) -> u64
    ensures { result ≡ record_code image.now section n }
{
    mungaite::mungaite_record(section, n, image)
}

// Adds a record to the image that a buffer starts with: 0, 1, 0, number of the record. A refused call changes no byte.
#[unsafe(no_mangle)]
pub extern "C" fn mungaite_add(buffer: &mut [u8], part: &[u8]) -> u64
    ensures { (result ≡ add_code buffer.old part.now) × (buffer.new ≡ buffer_after buffer.old part.now) }
{
    mungaite::mungaite_add(buffer, part)
}

// Builds the image of a text at the front of a buffer: 0 in the highest 16 bits and then the image's length, or the refusal's
// number and its place in the text. A refused text leaves the image of the rows before the refused one; a buffer under 9 bytes
// is left as it was.
#[unsafe(no_mangle)]
pub extern "C" fn mungaite_build(text: &[u8], buffer: &mut [u8]) -> u64
    ensures { (result ≡ build_code (built text.now buffer.old).answer)
        × (buffer.new ≡ (built text.now buffer.old).buffer) }
{
    mungaite::mungaite_build(text, buffer)
}

// Converts an old image, one that may have twins, into a buffer: 0, 1, 0, length of the new image. A refused call changes no
// byte, and bytes past the new image stay.
#[unsafe(no_mangle)]
pub extern "C" fn mungaite_convert(image: &[u8], buffer: &mut [u8]) -> u64
    ensures { (result ≡ convert_code image.now (length buffer.old))
        × (buffer.new ≡ buffer_converted image.now buffer.old) }
{
    mungaite::mungaite_convert(image, buffer)
}
