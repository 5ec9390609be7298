// The sample sheet of document 01 and the empty policy, as the bytes that programs hold. A function for each says that they
// are the definitions' own.
#![tactic(auto)]

ghost use Rattle.std.specs.Prelude.{◌≡◌};
ghost use Rattle.format.specs.Sample as definitions;

pub const SAMPLE: [u8; 80] = *b"\
    \x01\x00\x50\x00\x01\x00\x04\x00\x02\
    \x06\x01\x00\x14\x00\x15\
    \x0B\x02\x00\x0A\x80\x00\x00\x05\x00\x01\x01\
    \x0B\x02\x00\x14\x00\x1E\x00\x05\x00\x02\x01\
    \x08\x03\x00\x0C\x00\x14\x00\x05\
    \x0B\x02\x00\x0D\x00\x15\x00\x05\x00\x01\x00\
    \x0D\x04\x00\x05\x00\x01\x00\x0A\x00\x15\x02\x00\x0A\
    \x0B\x04\x00\x05\x00\x02\x00\x14\x00\x1E\x01";

pub const EMPTY: [u8; 9] = *b"\x01\x00\x09\x00\x00\x00\x00\x00\x00";

pub fn sample() -> [u8; 80]
    ensures { result ≡ definitions.sample }
{
    SAMPLE
}

pub fn empty() -> [u8; 9]
    ensures { result ≡ definitions.empty }
{
    EMPTY
}
