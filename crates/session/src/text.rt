// Writing bytes, texts and decimal numbers at a place of a table of bytes, and how many digits a number has. Each function that writes
// gives where what it wrote ends.
ghost use Rattle.std.specs.Prelude.{◌≤◌, ◌≡◌, [], ◌∷◌, length};
ghost use Rattle.session.specs.Text.{decimal};
ghost use Rattle.session.specs.Memory.Answers.{Room, Written};

pub fn write_byte(buf: &mut [u8], at: usize, byte: u8) -> usize
    requires { Room buf.old at (byte ∷ []) }
    ensures { Written buf.old at (byte ∷ []) buf.new result }
{
    buf[at] = byte;
    at + 1
}

pub fn write_text(buf: &mut [u8], at: usize, text: &[u8]) -> usize
    requires { Room buf.old at text.now }
    ensures { Written buf.old at text.now buf.new result }
{
    let end = at + text.len();
    buf[at..end].copy_from_slice(text);
    end
}

// How many digits a number has.
pub fn decimal_length(n: u32) -> usize
    ensures { (result ≡ length (decimal n)) × (result ≤ 10) }
{
    // most numbers of an answer have one digit, which takes no logarithm
    if n < 10 {
        return 1;
    }
    n.checked_ilog10().unwrap_or(0) as usize + 1
}

// Without leading zeros, from the last digit to the first.
pub fn write_decimal(buf: &mut [u8], at: usize, n: u32) -> usize
    requires { Room buf.old at (decimal n) }
    ensures { Written buf.old at (decimal n) buf.new result }
{
    if n < 10 {
        return write_byte(buf, at, b'0' + n as u8);
    }
    let end = at + decimal_length(n);
    let mut rest = n;
    for place in (at..end).rev() {
        buf[place] = b'0' + (rest % 10) as u8;
        rest /= 10;
    }
    end
}
