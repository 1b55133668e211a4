// The entries that are found as a range is divided.
ghost use Rattle.std.specs.Prelude.{◌≡◌, ◌+◌, ◌<◌, ◌^◌, set};
ghost use Rattle.dividing.specs.Keeping.{codes_of, sizes_of};

use palette::MOST_ENTRIES;

// An entry: its code, and how many pixels it has.
#[derive(Clone, Copy)]
pub struct CodedRange {
    pub code: u32,
    pub size: u32,
}

// Room for the entries that a card may hold, and how many were found, kept or not.
#[derive(Drop)]
pub struct Found {
    pub ranges: [CodedRange; MOST_ENTRIES],
    pub count: usize,
}

impl Found {
    pub fn new() -> Self
        ensures { result.count ≡ 0 }
    {
        Found {
            ranges: [CodedRange { code: 0, size: 0 }; MOST_ENTRIES],
            count: 0,
        }
    }

    // One entry more, kept where there is room, for whoever holds a `Found`. The division itself calls `leaf`, for a list of any length.
    pub fn add(&mut self, code: u32, size: usize)
        requires { (size < 2 ^ 32) × (self.old.count < 2 ^ 32) }
        ensures { (self.new.count ≡ self.old.count + 1)
            × (codes_of self.new.ranges ≡ set (codes_of self.old.ranges) self.old.count code)
            × (sizes_of self.new.ranges ≡ set (sizes_of self.old.ranges) self.old.count size) }
    {
        self.count = leaf(code, size, &mut self.ranges, self.count);
    }
}

// One entry after those found, kept where there is room: how many are found then.
pub fn leaf(code: u32, size: usize, ranges: &mut [CodedRange], found: usize) -> usize
    requires { (size < 2 ^ 32) × (found < 2 ^ 32) }
    ensures { (result ≡ found + 1)
        × (codes_of ranges.new ≡ set (codes_of ranges.old) found code)
        × (sizes_of ranges.new ≡ set (sizes_of ranges.old) found size) }
{
    if found < ranges.len() {
        ranges[found] = CodedRange {
            code,
            size: size as u32,
        };
    }
    found + 1
}

#[cfg(test)]
mod tests {
    use super::{Found, MOST_ENTRIES};

    // An entry past the room is counted, and those that are kept stay.
    #[test]
    fn adds_entries(rt: HostRuntime) {
        let mut found = Found::new();
        found.add(65, 2);
        found.add(4160, 3);
        assert_eq!(rt; found.count, 2);
        assert_eq!(rt; found.ranges[0].code, 65);
        assert_eq!(rt; found.ranges[0].size, 2);
        assert_eq!(rt; found.ranges[1].code, 4160);
        assert_eq!(rt; found.ranges[1].size, 3);
        // as if all places but one were taken
        found.count = MOST_ENTRIES - 1;
        found.add(5, 7);
        found.add(6, 8);
        assert_eq!(rt; found.count, MOST_ENTRIES + 1);
        assert_eq!(rt; found.ranges[MOST_ENTRIES - 1].code, 5);
        assert_eq!(rt; found.ranges[MOST_ENTRIES - 1].size, 7);
        assert_eq!(rt; found.ranges[0].code, 65);
        assert_eq!(rt; found.ranges[0].size, 2);
        assert_eq!(rt; found.ranges[1].code, 4160);
        assert_eq!(rt; found.ranges[1].size, 3);
    }
}
