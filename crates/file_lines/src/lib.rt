// Lines of numbers in columns: whether so many stand at a position, and their numbers written into a list that is lent for them.
#![tactic(auto)]

ghost use Rattle.file_lines.specs.Standing.{Says, FieldsAt, LineAt, LinesAt, Fillable, Filled};

// The largest number that a list may hold.
const LARGEST: u64 = 4294967295;

// Whether so many numbers up to the largest stand in fields from a position on.
pub fn check_fields(bytes: &[u8], at: usize, count: usize) -> bool
    ensures { Says result (FieldsAt bytes.now at count) }
{
    let mut next = at;
    for _i in 0..count {
        match file_columns::read_field(bytes, next) {
            Some(n) if n <= LARGEST => next += 14,
            _ => return false,
        }
    }
    true
}

// Whether a line of so many numbers stands there.
pub fn check_line(bytes: &[u8], at: usize, count: usize) -> bool
    ensures { Says result (LineAt bytes.now at count) }
{
    if !check_fields(bytes, at, count) {
        return false;
    }
    match bytes.get(at + 14 * count) {
        Some(byte) => *byte == b'\n',
        None => false,
    }
}

// Whether so many lines of so many numbers each stand there.
pub fn check_lines(bytes: &[u8], at: usize, lines: usize, count: usize) -> bool
    ensures { Says result (LinesAt bytes.now at lines count) }
{
    let mut next = at;
    for _i in 0..lines {
        if !check_line(bytes, next, count) {
            return false;
        }
        next += 14 * count + 1;
    }
    true
}

// The numbers of such lines, written to the front of a list.
pub fn fill_lines(bytes: &[u8], at: usize, lines: usize, count: usize, list: &mut [u32])
    requires { Fillable bytes.now at lines count list.old }
    ensures { Filled bytes.now at lines count list.old list.new }
{
    for i in 0..lines * count {
        // after i numbers and the line feeds among them
        list[i] = file_columns::number_at(bytes, at + (14 * i + i / count));
    }
}
