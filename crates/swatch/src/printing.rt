// The text of a card: lines of fields, each field a number in 6 columns. Every function here that is lent bytes writes into the first of
// them, and leaves those that come after as they were.
ghost use Rattle.std.specs.Prelude.{◌≡◌, cond, ◌∷◌, [], ◌+◌, ◌*◌, ◌/◌, ◌%◌, ◌≤◌, ◌<◌, ltb, length};
ghost use Rattle.lists.specs.Lists.{over};
ghost use Rattle.palette.specs.Cards.{most_entries};
ghost use Rattle.swatch.specs.Input.{space, digit_zero};
ghost use Rattle.swatch.specs.Output.{printed_field, printed_line, printed_card, printed_most, entry_figures};

use palette::Entry;

// The digit of the value at `unit`, a power of ten.
fn digit(value: u32, unit: u32) -> u8
    requires { 0 < unit }
    ensures { result ≡ digit_zero + value / unit % 10 }
{
    b'0' + (value / unit % 10) as u8
}

// That digit, or a space in front of the first digit.
fn column(value: u32, unit: u32) -> u8
    requires { 0 < unit }
    ensures { result ≡ cond (ltb value unit) space (digit_zero + value / unit % 10) }
{
    if value < unit {
        return b' ';
    }
    digit(value, unit)
}

// A number in 6 columns. The last column always has a digit, even a 0 with no digit before it.
fn field(value: u32) -> [u8; 6]
    ensures { result ≡ printed_field value }
{
    [
        column(value, 100000),
        column(value, 10000),
        column(value, 1000),
        column(value, 100),
        column(value, 10),
        digit(value, 1),
    ]
}

// Writes a line of fields. Returns how many bytes it has.
fn put_line(values: &[u32], out: &mut [u8]) -> usize
    requires { 6 * length values.now < length out.old }
    ensures text { out.new ≡ over (printed_line values.now) out.old }
    ensures len { result ≡ length (printed_line values.now) }
{
    let mut len = 0;
    for value in values {
        out[len..len + 6].copy_from_slice(&field(*value));
        len += 6;
    }
    out[len] = b'\n';
    len + 1
}

// The figures of an entry, in the order of its line.
fn figures(entry: &Entry) -> [u32; 8]
    ensures { result ≡ entry_figures entry.now }
{
    [
        u32::from(entry.kind),
        u32::from(entry.hue),
        u32::from(entry.saturation),
        u32::from(entry.intensity),
        u32::from(entry.red),
        u32::from(entry.green),
        u32::from(entry.blue),
        entry.count,
    ]
}

// Writes the text of a card. Returns how many bytes it has.
pub fn print_card(pixels: u32, closeness: u32, entries: &[Entry], out: &mut [u8]) -> usize
    requires { (length entries.now ≤ most_entries) × (printed_most ≤ length out.old) }
    ensures text { out.new ≡ over (printed_card pixels closeness entries.now) out.old }
    ensures len { result ≡ length (printed_card pixels closeness entries.now) }
{
    let mut len = put_line(&[entries.len() as u32, pixels, closeness], out);
    for entry in entries {
        len += put_line(&figures(entry), &mut out[len..]);
    }
    len
}

// Writes the line of a turned-down swatch, one field. Returns how many bytes it has.
pub fn print_number(number: u32, out: &mut [u8]) -> usize
    requires { 7 ≤ length out.old }
    ensures text { out.new ≡ over (printed_line (number ∷ [])) out.old }
    ensures len { result ≡ length (printed_line (number ∷ [])) }
{
    put_line(&[number], out)
}
