// Decimal numbers, alone and parted by commas (specs/Memory/Numbers.antt).
ghost use Rattle.std.specs.Prelude.{◌≡◌, ◌≤◌, length};
ghost use Rattle.session.specs.Text as Text;
ghost use Rattle.session.specs.Memory.Commands.{max_numbers};
ghost use Rattle.session.specs.Memory.Numbers.{number_meaning, digits_from, ReadsNumbers};

use crate::reader::first_byte;
use crate::run::MAX_NUMBERS;

// The number that digits write, zeros in front included. One that is too large is refused at the first digit that makes it so.
fn read_digits(ds: &[u8]) -> Option<u32>
    ensures { number_meaning result ≡ digits_from 0 ds.now }
{
    // in 64 bits no product or sum is too large, so that one test says whether the number is
    let mut n: u64 = 0;
    for d in ds {
        if !d.is_ascii_digit() {
            return None;
        }
        n = n * 10 + (*d - b'0') as u64;
        if n > u32::MAX as u64 {
            return None;
        }
    }
    Some(n as u32)
}

// A decimal number up to 4,294,967,295 without leading zeros.
pub fn read_number(ds: &[u8]) -> Option<u32>
    ensures { number_meaning result ≡ Text.number ds.now }
{
    if ds.is_empty() {
        return None;
    }
    if ds.len() > 1 && ds[0] == b'0' {
        return None;
    }
    read_digits(ds)
}

// The numbers between the commas of a value go to the start of a table. Given is how many they are; none if one does not read or there
// are more than 17.
pub fn read_numbers(v: &[u8], numbers: &mut [u32]) -> Option<usize>
    requires { max_numbers ≤ length numbers.old }
    ensures { ReadsNumbers v.now result numbers.new }
{
    let mut from = 0;
    for n in 0..MAX_NUMBERS {
        let end = first_byte(v, from, b',').unwrap_or(v.len());
        numbers[n] = read_number(&v[from..end])?;
        if end == v.len() {
            return Some(n + 1);
        }
        from = end + 1;
    }
    None
}
