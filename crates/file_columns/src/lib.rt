// Numbers in columns: reading the fields of a job file, and writing what the program prints.
#![tactic(auto)]

ghost use Rattle.std.specs.Prelude.{◌≡◌, ◌+◌, ◌<◌, ◌≤◌, ◌^◌, length};
ghost use Rattle.file_columns.specs.Field.{Next, FieldAt, NumberAt};
ghost use Rattle.file_columns.specs.Put.{written, Puttable};
ghost use Rattle.model.specs.File.{justified, columns, signed_columns};

use itoa::Buffer;

// One more column of a field, after columns that hold `value` (0 while there are only spaces) and before the last:
// a space where no number has begun, or a digit that is no zero in front.
fn next_column(value: u64, byte: u8) -> Option<u64>
    requires { value < 10 ^ 13 }
    ensures { Next value byte result }
{
    match byte {
        b' ' if value == 0 => Some(0),
        b'0'..=b'9' => {
            let next = value * 10 + (byte - b'0') as u64;
            if next == 0 { None } else { Some(next) }
        }
        _ => None,
    }
}

// The number in the field of 14 columns at a position of a file, where one stands there.
pub fn read_field(bytes: &[u8], at: usize) -> Option<u64>
    ensures { FieldAt bytes.now at result }
{
    let field = bytes.get(at..)?.get(..14)?;
    let mut value: u64 = 0;
    for byte in &field[..13] {
        value = next_column(value, *byte)?;
    }
    match field[13] {
        last @ b'0'..=b'9' => Some(value * 10 + (last - b'0') as u64),
        _ => None,
    }
}

// The number up to 4294967295 in the field at a position of a file, 0 where there is none: it is asked of lines that were checked, and
// `read_field` is the test, an Option.
#[tactic(auto, using(crate::proofs::Numbers::number_known))]
pub fn number_at(bytes: &[u8], at: usize) -> u32
    ensures { NumberAt bytes.now at result }
{
    let number = read_field(bytes, at).unwrap_or(0);
    u32::try_from(number).unwrap_or(0)
}

// A text, right-justified in so many columns from a position on.
pub fn put_text(out: &mut [u8], at: usize, width: usize, text: &[u8])
    requires { (length text.now ≤ width) × (at + width ≤ length out.old) }
    ensures { out.new ≡ written out.old at (justified width text.now) }
{
    let first = at + (width - text.len());
    out[at..first].fill(b' ');
    out[first..at + width].copy_from_slice(text);
}

// A number, right-justified in so many columns from a position on.
pub fn put_number(out: &mut [u8], at: usize, width: usize, n: u64)
    requires { Puttable out.old at width n }
    ensures { out.new ≡ written out.old at (columns width n) }
{
    put_text(out, at, width, Buffer::new().format(n).as_bytes());
}

// A number with its sign, right-justified in 20 columns from a position on: `-` before the digits of a negative one.
pub fn put_signed(out: &mut [u8], at: usize, z: i64)
    requires { at + 20 ≤ length out.old }
    ensures { out.new ≡ written out.old at (signed_columns 20 z) }
{
    put_text(out, at, 20, Buffer::new().format(z).as_bytes());
}
