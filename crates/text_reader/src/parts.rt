// The parts of an input: a plan up to the first empty line, and what follows it.
// Document 02, point 2: "A program reads a plan up to the first empty line, then a listing"
ghost use Rattle.std.specs.Prelude.{◌≡◌, ◌&&◌, eqb};
ghost use Rattle.text_reader.specs.Parts.{Parted};

// Whether the byte `b`, behind the byte `before`, is the line feed of an empty line.
fn is_empty_line(before: u8, b: u8) -> bool
    ensures { result ≡ (eqb b 10 && eqb before 10) }
{
    b == b'\n' && before == b'\n'
}

// How many bytes stand before the first empty line; without an empty line, all of them.
pub fn plan_length(input: &[u8]) -> usize
    ensures { Parted input.now result }
{
    let mut before: u8 = b'\n';
    for (i, &b) in input.iter().enumerate() {
        if is_empty_line(before, b) {
            return i;
        }
        before = b;
    }
    input.len()
}
