// An answer as a line: a letter, the numbers in decimal with one space before each, and a line feed. Each function puts
// bytes into a buffer, from a place on, and tells the place past them.
ghost use Rattle.std.specs.Prelude.{[], ◌∷◌, ◌+◌, ◌≤◌, length};
ghost use Rattle.decision.specs.Numbers.{host_decision};
ghost use Rattle.lines.specs.Lines.{line};
ghost use Rattle.streams.specs.Put.{Put};

// N and a hyphen.
fn put_no_rules(output: &mut [u8], at: usize) -> usize
    requires { at + 4 ≤ length output.old }
    ensures { Put output.old output.new at result (78 ∷ 32 ∷ 45 ∷ 10 ∷ []) }
{
    let end = at + 4;
    output[at..end].copy_from_slice(b"N -\n");
    end
}

// The line of an answer, from its number: the kind, and the two lowest parts. It has at most 44 bytes: a letter, two numbers
// of at most 20 digits with their spaces, and a line feed. N has a hyphen where the rule's number says that there are no rules.
pub(crate) fn put_line(number: u64, output: &mut [u8], at: usize) -> usize
    requires { at + 44 ≤ length output.old }
    ensures { Put output.old output.new at result (line (host_decision number)) × (result ≤ at + 44) }
{
    let kind = number / 4294967296 % 65536;
    let third = (number / 65536 % 65536) as usize;
    let fourth = (number % 65536) as usize;
    match kind {
        1 => streams::put_line(b'P', &[fourth], output, at),
        2 => streams::put_line(b'R', &[third, fourth], output, at),
        3 => streams::put_line(b'U', &[third, fourth], output, at),
        _ if fourth == 65535 => put_no_rules(output, at),
        _ => streams::put_line(b'N', &[third, fourth], output, at),
    }
}
