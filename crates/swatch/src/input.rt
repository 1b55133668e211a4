// Reading a swatch. Line k is always read from byte 13k on: an earlier line feed would stand in a column of a field, where it is refused.
ghost use Rattle.std.specs.Prelude.{◌≡◌, ◌*◌, ◌+◌, ◌≤◌, length, take, option_map, IfOk};
ghost use Rattle.swatch.specs.Input.{
  after_spaces,
  decimal,
  field,
  header_of,
  size_of,
  pixel_line,
  pixel_bytes,
  bytes_of,
};
ghost use Rattle.swatch.specs.Reading.{given, colour_field, most_swatch_pixels, reading_of};

use crate::{COLUMNS, LINE, MOST_SWATCH_PIXELS, Unread};

// The columns from the first that is not a space on.
fn after_spaces(columns: &[u8]) -> &[u8]
    ensures { result.now ≡ after_spaces columns.now }
{
    let mut rest = columns;
    while let [b' ', more @ ..] = rest {
        rest = more;
    }
    rest
}

// The decimal number in the columns. Six columns hold a number below a million.
fn digits(columns: &[u8]) -> Option<u32>
    requires { length columns.now ≤ 6 }
    ensures { given result ≡ decimal 0 columns.now }
{
    let mut value: u32 = 0;
    for c in columns {
        if !c.is_ascii_digit() {
            return None;
        }
        value = 10 * value + u32::from(*c - b'0');
    }
    Some(value)
}

// The value of a field.
fn field_value(columns: &[u8]) -> Option<u32>
    requires { length columns.now ≤ 6 }
    ensures { given result ≡ field columns.now }
{
    let numeral = after_spaces(columns);
    if numeral.is_empty() {
        return None;
    }
    if numeral[0] == b'0' && numeral.len() > 1 {
        return None;
    }
    digits(numeral)
}

// The value of a field of 0 to 255.
fn colour_value(columns: &[u8]) -> Option<u8>
    requires { length columns.now ≤ 6 }
    ensures { given result ≡ colour_field columns.now }
{
    let value = field_value(columns)?;
    u8::try_from(value).ok()
}

// The header's two fields: those of the first 13 bytes.
fn header(text: &[u8]) -> Option<[u32; 2]>
    ensures { given result ≡ header_of text.now }
{
    let line = text.first_chunk::<LINE>()?;
    if line[COLUMNS] != b'\n' {
        return None;
    }
    let width = field_value(&line[0..6])?;
    let height = field_value(&line[6..12])?;
    Some([width, height])
}

// The three fields of a pixel line.
fn pixel_line(line: &[u8]) -> Option<[u8; 3]>
    requires { length line.now ≡ 13 }
    ensures { given result ≡ pixel_line line.now }
{
    if line[COLUMNS] != b'\n' {
        return None;
    }
    let red = colour_value(&line[0..4])?;
    let green = colour_value(&line[4..8])?;
    let blue = colour_value(&line[8..12])?;
    Some([red, green, blue])
}

// Whether the pixel lines, and nothing else, follow the header. Their fields are left in the first places of `bytes`.
fn pixel_lines(text: &[u8], pixels: usize, bytes: &mut [u8]) -> Option<()>
    requires { (pixels ≡ size_of text.now) × (1 ≤ pixels) × (pixels ≤ most_swatch_pixels) × (3 * pixels ≤ length bytes.old) }
    ensures { given (option_map (λ _. take (3 * pixels) bytes.new) result) ≡ pixel_bytes text.now }
{
    if text.len() != LINE * (pixels + 1) {
        return None;
    }
    for i in 0..pixels {
        let start = LINE * (i + 1);
        let row = pixel_line(&text[start..start + LINE])?;
        bytes[3 * i..3 * i + 3].copy_from_slice(&row);
    }
    Some(())
}

// Reads a swatch from any bytes, of any length: how many pixels it has. Their bytes are left in the first places of `bytes`; if the
// swatch is turned down, those places have no meaning.
// Put into the text call it would make that too large for the compiler to see that one of two copies of what is printed is needless.
#[inline(never)]
pub fn read(text: &[u8], bytes: &mut [u8]) -> Result<u32, Unread>
    requires { 3 * most_swatch_pixels ≤ length bytes.old }
    ensures answer { result ≡ reading_of text.now }
    ensures bytes { IfOk result (λ pixels. take (3 * pixels) bytes.new ≡ bytes_of text.now) }
{
    let [width, height] = header(text).ok_or(Unread::Header)?;
    let pixels = u64::from(width) * u64::from(height);
    if pixels == 0 || pixels > MOST_SWATCH_PIXELS as u64 {
        return Err(Unread::Size);
    }
    pixel_lines(text, pixels as usize, bytes).ok_or(Unread::Lines)?;
    Ok(pixels as u32)
}
