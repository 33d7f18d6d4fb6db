// The line reader: where a line of the script ends (specs/Memory/Lines.antt).
ghost use Rattle.std.specs.Prelude.{◌≡◌, ◌≤◌, length};
ghost use Rattle.session.specs.Memory.Lines.{FindsByte, LineEnd};

// The place of the first byte b from a place on, if there is one.
pub fn first_byte(s: &[u8], from: usize, b: u8) -> Option<usize>
    requires { from ≤ length s.now }
    ensures { FindsByte b s.now from result }
{
    for i in from..s.len() {
        if s[i] == b {
            return Some(i);
        }
    }
    None
}

// The first LF from a place on, or the script's length.
pub fn find_end(script: &[u8], at: usize) -> usize
    requires { at ≤ length script.now }
    ensures { LineEnd script.now at result }
{
    first_byte(script, at, b'\n').unwrap_or(script.len())
}

// The script and a place of it together: the scope names this form for the line reader.
#[derive(Clone, Copy)]
pub struct Reader<'a> {
    pub script: &'a [u8],
    pub at: usize,
}

impl<'a> Reader<'a> {
    // A reader at a place.
    pub fn new(script: &'a [u8], at: usize) -> Reader<'a>
        ensures { (result.script ≡ script.entry) × (result.at ≡ at) }
    {
        Reader { script, at }
    }

    // Where the reader's line ends.
    pub fn end(self) -> usize
        requires { self.at ≤ length self.script.now }
        ensures { LineEnd self.entry.script.now self.entry.at result }
    {
        find_end(self.script, self.at)
    }
}

// Where the line that begins at a place ends.
pub fn line_end(script: &[u8], at: usize) -> usize
    requires { at ≤ length script.now }
    ensures { LineEnd script.now at result }
{
    Reader::new(script, at).end()
}
